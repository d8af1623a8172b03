// Two trees, the first one lifted: equal, or the first pair of rows that differ.
ghost use Rattle.std.specs.Prelude.{◌≡◌, ◌<◌, ◌≤◌};
ghost use Rattle.pool.specs.Views.{lent};
ghost use Rattle.pool.specs.Tables.{E};
ghost use Rattle.pool.specs.Tree.{same, lift};
ghost use Rattle.pool.specs.Unfold.{expr_at};
ghost use Rattle.occurrence.specs.Asked.{Told};
ghost use Rattle.compare.specs.Equal.{trees_same};
ghost use Rattle.difference.specs.Order.{first_pair};
ghost use Rattle.difference.specs.Walks.{Tells, Compares};

use super::walk::{Found, walk};
use compare::trees::glance;
use equality::sweep;
use pool::checked::CheckedPool;

// In a number of steps, with nothing kept, so that no array is cleared.
fn try_steps(pool: &CheckedPool<'_>, a: usize, b: usize, d: usize, steps: usize) -> Found
    requires { (a < E (lent pool.now).words) × (b < E (lent pool.now).words) }
    ensures { Tells (first_pair (lent pool.now) d a b) result }
{
    let mut kept = [0u32; 1];
    let mut left = Some(steps);
    walk(pool, &mut kept, &mut left, d, Some(a), Some(b), 0)
}

// Without a limit, over an array of N rows: it is as long as the pool asks, so that a small one clears little. Not inlined, so that the
// array stands in no other frame.
#[inline(never)]
fn search_in<const N: usize>(pool: &CheckedPool<'_>, a: usize, b: usize, d: usize) -> Found
    requires { (a < E (lent pool.now).words) × (b < E (lent pool.now).words) × (N ≤ 65536) }
    ensures { Compares (first_pair (lent pool.now) d a b) d result }
{
    let mut kept = [0u32; N];
    let mut unlimited = None;
    walk(pool, &mut kept, &mut unlimited, d, Some(a), Some(b), 0)
}

fn search(pool: &CheckedPool<'_>, a: usize, b: usize, d: usize) -> Found
    requires { (a < E (lent pool.now).words) × (b < E (lent pool.now).words) }
    ensures { Compares (first_pair (lent pool.now) d a b) d result }
{
    if a.max(b) < 2048 {
        return search_in::<2048>(pool, a, b, d);
    }
    search_in::<65536>(pool, a, b, d)
}

// Whether they are equal, by a sweep: None where there is no room for one, which an accepted pool has. Not by `or_else`: closures over
// `sized` would each need its contract written out.
fn sweep_all(pool: &CheckedPool<'_>, a: usize, b: usize, d: usize) -> Option<bool>
    requires { (a < E (lent pool.now).words) × (b < E (lent pool.now).words) }
    ensures { Told (trees_same (lent pool.now) d 0 a b) result }
{
    let few = sweep::sized::<512>(pool, a, b, d);
    if few.is_some() {
        return few;
    }
    let more = sweep::sized::<8192>(pool, a, b, d);
    if more.is_some() {
        return more;
    }
    sweep::sized::<65536>(pool, a, b, d)
}

// What few steps leave open. Lifted trees may share rows that no array keeps: a sweep says whether they are equal, and no
// pair is looked for.
fn settle(pool: &CheckedPool<'_>, a: usize, b: usize, d: usize) -> Found
    requires { (a < E (lent pool.now).words) × (b < E (lent pool.now).words) }
    ensures { Compares (first_pair (lent pool.now) d a b) d result }
{
    if d == 0 {
        return search(pool, a, b, d);
    }
    match sweep_all(pool, a, b, d) {
        Some(true) => Found::Equal,
        Some(false) => Found::Unknown,
        None => search(pool, a, b, d),
    }
}

// The tree of row a, its loose variables lifted by d, and that of row b: equal, or the first pair of rows that differ, or, of a lifted tree
// alone, only that they differ. Sixteen times as many steps are tried once more, if what else there is would go over more rows than were tried.
pub fn compare(pool: &CheckedPool<'_>, a: usize, b: usize, d: usize) -> Found
    requires { (a < E (lent pool.now).words) × (b < E (lent pool.now).words) }
    ensures { Compares (first_pair (lent pool.now) d a b) d result }
{
    let quick = try_steps(pool, a, b, d, 256);
    if quick != Found::Unknown {
        return quick;
    }
    if 256 < a {
        let longer = try_steps(pool, a, b, d, 4096);
        if longer != Found::Unknown {
            return longer;
        }
    }
    settle(pool, a, b, d)
}

// Whether the tree of row a, its loose variables lifted by d, is that of row b, all fields. Their depths and loose words say so first.
pub fn same_lifted(pool: &CheckedPool<'_>, a: usize, b: usize, d: usize) -> bool
    requires { (a < E (lent pool.now).words) × (b < E (lent pool.now).words) }
    ensures { result ≡ same (lift d 0 (expr_at (lent pool.now) a)) (expr_at (lent pool.now) b) }
{
    if let Some(quick) = glance(pool, d, a, b, 0) {
        return quick;
    }
    compare(pool, a, b, d) == Found::Equal
}
