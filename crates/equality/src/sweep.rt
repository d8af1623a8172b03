// The sweep by levels: what a row lifted from c on has to be stands in an array, what it has to be under one binder more in a second, and
// what rows have to be as they are in a third. Each row of a level is met once. An answer is whether what is owed is so, None where
// there is no room.
ghost use Rattle.std.specs.Prelude.{◌+◌, ◌<◌, ◌≤◌};
ghost use Rattle.pool.specs.Views.{lent};
ghost use Rattle.pool.specs.Tables.{E};
ghost use Rattle.links.specs.Links.{Owes, Clear, Stepped, Settled};
ghost use Rattle.occurrence.specs.Asked.{Told};
ghost use Rattle.compare.specs.Equal.{trees_same};
ghost use Rattle.equality.specs.Sweep.{tree_at, Owed, Moved, Level};

use super::puts::{link_parts, put_parts};
use compare::trees::agree;
use links::{highest, is_clear, put, take};
use pool::checked::CheckedPool;
use pool::fields::EXPR_DEPTH;

// What row a, lifted from c on, has to be.
fn lifted_row(
    pool: &CheckedPool<'_>,
    cur: &mut [u32],
    next: &mut [u32],
    owed: &mut [u32],
    d: usize,
    a: usize,
    c: usize,
) -> Option<bool>
    requires { a < E (lent pool.now).words }
    ensures { Moved (Owed (lent pool.now) d c cur.old next.old owed.old)
        (Owed (lent pool.now) d c cur.new next.new owed.new) result }
{
    let Some(m) = take(cur, a) else {
        return Some(true);
    };
    if pool.words.tables.exprs <= m {
        return None;
    }
    match agree(pool, d, a, m, c) {
        None => put_parts(&pool.words, cur, next, owed, a, m).then_some(true),
        quick => quick,
    }
}

// The rows below n of one level. The arrays are lent one by one and not as one struct, since the first two take turns.
fn lifted_rows(
    pool: &CheckedPool<'_>,
    cur: &mut [u32],
    next: &mut [u32],
    owed: &mut [u32],
    d: usize,
    n: usize,
    c: usize,
) -> Option<bool>
    requires { n ≤ E (lent pool.now).words }
    ensures { Level (lent pool.now) d c cur.old next.old owed.old
        cur.new next.new owed.new result }
{
    let mut below = n;
    while let Some(a) = highest(cur, below) {
        if !lifted_row(pool, cur, next, owed, d, a, c)? {
            return Some(false);
        }
        below = a;
    }
    is_clear(cur).then_some(true)
}

// Two levels at a time, since the arrays take turns, while something is owed, and as many as the trees are deep.
fn levels(
    pool: &CheckedPool<'_>,
    cur: &mut [u32],
    next: &mut [u32],
    owed: &mut [u32],
    d: usize,
    n: usize,
    depth: usize,
) -> Option<bool>
    requires { (n ≤ E (lent pool.now).words) × (depth < 4294967296) × Clear next.old }
    ensures { Moved (Owed (lent pool.now) d 0 cur.old next.old owed.old)
        (Owes (tree_at (lent pool.now)) (tree_at (lent pool.now)) owed.new) result }
{
    let mut c = 0;
    // No `for`: it would go in steps of two and break where nothing is owed, which is no plainer.
    while c < depth && highest(cur, n).is_some() {
        if !lifted_rows(pool, cur, next, owed, d, n, c)? {
            return Some(false);
        }
        if !lifted_rows(pool, next, cur, owed, d, n, c + 1)? {
            return Some(false);
        }
        c += 2;
    }
    is_clear(cur).then_some(true)
}

// What row x has to be as it is. This and the pass below are not one with those of a level: a row is taken from the array that its parts go
// to, so that the three arrays there cannot be lent here.
fn plain_row(pool: &CheckedPool<'_>, owed: &mut [u32], x: usize) -> Option<bool>
    requires { x < E (lent pool.now).words }
    ensures { Stepped (tree_at (lent pool.now)) owed.old owed.new result }
{
    let Some(m) = take(owed, x) else {
        return Some(true);
    };
    if pool.words.tables.exprs <= m {
        return None;
    }
    match agree(pool, 0, x, m, 0) {
        None => link_parts(&pool.words, owed, x, m).then_some(true),
        quick => quick,
    }
}

fn plain_rows(pool: &CheckedPool<'_>, owed: &mut [u32], n: usize) -> Option<bool>
    requires { n ≤ E (lent pool.now).words }
    ensures { Settled (tree_at (lent pool.now)) owed.old result }
{
    let mut below = n;
    while let Some(x) = highest(owed, below) {
        if !plain_row(pool, owed, x)? {
            return Some(false);
        }
        below = x;
    }
    is_clear(owed).then_some(true)
}

fn swept(
    pool: &CheckedPool<'_>,
    cur: &mut [u32],
    next: &mut [u32],
    owed: &mut [u32],
    a: usize,
    b: usize,
    d: usize,
) -> Option<bool>
    requires { (a < E (lent pool.now).words) × (b < E (lent pool.now).words)
        × Clear cur.old × Clear next.old × Clear owed.old }
    ensures { Told (trees_same (lent pool.now) d 0 a b) result }
{
    if !put(cur, owed, a, b) {
        return None;
    }
    let depth = pool.words.expr(a, EXPR_DEPTH);
    if !levels(pool, cur, next, owed, d, a + 1, depth)? {
        return Some(false);
    }
    plain_rows(pool, owed, a.max(b) + 1)
}

// Over arrays of N rows: they are as long as the pool asks, so that a small one clears little. Not inlined, so that they stand in no other
// frame.
#[inline(never)]
pub fn sized<const N: usize>(pool: &CheckedPool<'_>, a: usize, b: usize, d: usize) -> Option<bool>
    requires { (a < E (lent pool.now).words) × (b < E (lent pool.now).words) × (N ≤ 65536) }
    ensures { Told (trees_same (lent pool.now) d 0 a b) result }
{
    let mut cur = [0u32; N];
    let mut next = [0u32; N];
    let mut owed = [0u32; N];
    swept(pool, &mut cur, &mut next, &mut owed, a, b, d)
}
