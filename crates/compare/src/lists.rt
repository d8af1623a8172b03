// Equality of lists of levels: all levels of two lists in few steps, or in one pass over the level rows.
ghost use Rattle.std.specs.Prelude.{◌≡◌, true, ◌<◌, ◌≤◌};
ghost use Rattle.pool.specs.Views.{lent};
ghost use Rattle.pool.specs.Tables.{K};
ghost use Rattle.pool.specs.Tree.{level_shapes, same_shapes};
ghost use Rattle.pool.specs.Unfold.{list_at};
ghost use Rattle.occurrence.specs.Asked.{Told};
ghost use Rattle.compare.specs.Equal.{lists_same, TwoLists, LinkedLists};

use super::levels::{level_rows, same_level, try_level};
use links::link;
use pool::checked::CheckedPool;
use pool::fields::{LIST_LENGTH, LIST_OFFSET};

// The n levels from the list words x and y on, in so many steps for all of them; nothing where they do not do.
fn try_entries(pool: &CheckedPool<'_>, x: usize, y: usize, n: usize, steps: usize) -> Option<bool>
    requires { TwoLists (lent pool.now) x y n }
    ensures { Told (lists_same (lent pool.now) x y n) result }
{
    let mut left = steps;
    // No iterator: the steps left would be what its closure changes, here and what is owed below.
    for i in 0..n {
        let level_x = pool.words.entry(x + i);
        let level_y = pool.words.entry(y + i);
        if !try_level(pool, level_x, level_y, &mut left)? {
            return Some(false);
        }
    }
    Some(true)
}

// Henceforth the n levels from the list words x and y on have to be equal; false where there is no room for them.
fn link_entries(pool: &CheckedPool<'_>, owed: &mut [u32], x: usize, y: usize, n: usize) -> bool
    requires { TwoLists (lent pool.now) x y n }
    ensures { result ≡ true → LinkedLists (lent pool.now).words owed.old owed.new x y n }
{
    for i in 0..n {
        let level_x = pool.words.entry(x + i);
        let level_y = pool.words.entry(y + i);
        if !link(owed, level_x, level_y) {
            return false;
        }
    }
    true
}

// One pass over the rows for all of them, with an array of N rows. It stays in a function of its own: whoever asks pays for it only where it
// comes to a pass.
#[inline(never)]
fn pass_entries<const N: usize>(
    pool: &CheckedPool<'_>,
    x: usize,
    y: usize,
    n: usize,
) -> Option<bool>
    requires { (TwoLists (lent pool.now) x y n) × (N < 65537) }
    ensures { Told (lists_same (lent pool.now) x y n) result }
{
    let mut owed = [0u32; N];
    if !link_entries(pool, &mut owed, x, y, n) {
        return None;
    }
    level_rows(pool, &mut owed, pool.words.tables.levels)
}

// As many levels from the list words x and y on, one by one: for rows past every array of a pass, which an accepted pool has not.
fn levels(pool: &CheckedPool<'_>, x: usize, y: usize, n: usize) -> bool
    requires { TwoLists (lent pool.now) x y n }
    ensures { result ≡ lists_same (lent pool.now) x y n }
{
    // By `for`: `all` was tried, and the proof did not close, neither of its answer nor of what its closure asks.
    for i in 0..n {
        let level_x = pool.words.entry(x + i);
        let level_y = pool.words.entry(y + i);
        if !same_level(pool, level_x, level_y) {
            return false;
        }
    }
    true
}

// Most lists are compared in few steps, a long one in as many as it has levels; the rest by a pass, with an array as long as the pool asks,
// so that a small one clears little; one by one where there is no room for one. Not by `or_else`, as in `difference::trees::sweep_all`.
fn same_entries(pool: &CheckedPool<'_>, x: usize, y: usize, n: usize) -> bool
    requires { TwoLists (lent pool.now) x y n }
    ensures { result ≡ lists_same (lent pool.now) x y n }
{
    if let Some(answer) = try_entries(pool, x, y, n, 256) {
        return answer;
    }
    if 256 <= n {
        if let Some(answer) = try_entries(pool, x, y, n, n + 256) {
            return answer;
        }
    }
    if let Some(answer) = pass_entries::<256>(pool, x, y, n) {
        return answer;
    }
    if let Some(answer) = pass_entries::<65536>(pool, x, y, n) {
        return answer;
    }
    levels(pool, x, y, n)
}

pub fn same_list(pool: &CheckedPool<'_>, a: usize, b: usize) -> bool
    requires { (a < K (lent pool.now).words) × (b < K (lent pool.now).words) }
    ensures { result ≡ same_shapes (level_shapes (list_at (lent pool.now) a))
        (level_shapes (list_at (lent pool.now) b)) }
{
    if a == b {
        return true;
    }
    let size = pool.words.list(a, LIST_LENGTH);
    if size != pool.words.list(b, LIST_LENGTH) {
        return false;
    }
    let from_a = pool.words.list(a, LIST_OFFSET);
    let from_b = pool.words.list(b, LIST_OFFSET);
    same_entries(pool, from_a, from_b, size)
}
