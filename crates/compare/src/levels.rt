// Equality of levels.
ghost use Rattle.std.specs.Prelude.{◌≡◌, ◌<◌, ◌≤◌};
ghost use Rattle.pool.specs.Views.{lent};
ghost use Rattle.pool.specs.Tables.{L};
ghost use Rattle.links.specs.Links.{Stepped, Settled};
ghost use Rattle.occurrence.specs.Asked.{Told};
ghost use Rattle.compare.specs.Equal.{Quick, Compared, levels_same, level_shape_at, EqualLevels, Branches, TwoLevels};

use super::{names, seen};
use links::{highest, is_clear, link, take};
use pool::checked::CheckedPool;
use pool::fields::{LEVEL_FIRST, LEVEL_SECOND};
use pool::kinds::LevelKind;

// A first look: whether they are equal; nothing where their parts say.
fn glance(pool: &CheckedPool<'_>, a: usize, b: usize) -> Option<bool>
    requires { (a < L (lent pool.now).words) × (b < L (lent pool.now).words) }
    ensures { Quick (levels_same (lent pool.now) a b) (Branches (lent pool.now) a b) result }
{
    if a == b {
        return Some(true);
    }
    let kind = pool.words.level_kind(a);
    if kind != pool.words.level_kind(b) {
        return Some(false);
    }
    match kind {
        Some(LevelKind::Zero) => Some(true),
        Some(LevelKind::Param) => {
            let name_a = pool.words.level(a, LEVEL_FIRST);
            let name_b = pool.words.level(b, LEVEL_FIRST);
            Some(names::same_name(pool, name_a, name_b))
        }
        _ => None,
    }
}

// Two rows are compared once, unless what was answered of them was overwritten.
fn level(pool: &CheckedPool<'_>, known: &mut [usize], a: usize, b: usize) -> bool
    requires { TwoLevels (lent pool.now) known.old a b }
    ensures { Compared (EqualLevels (lent pool.now)) (levels_same (lent pool.now) a b)
        known.new result }
{
    if let Some(answer) = glance(pool, a, b) {
        return answer;
    }
    let key = seen::key(a, b, 0);
    let at = seen::slot(key, known.len());
    if seen::held(known, at, key) {
        return true;
    }
    let first_a = pool.words.level(a, LEVEL_FIRST);
    let first_b = pool.words.level(b, LEVEL_FIRST);
    if !level(pool, known, first_a, first_b) {
        return false;
    }
    let second_a = pool.words.level(a, LEVEL_SECOND);
    let second_b = pool.words.level(b, LEVEL_SECOND);
    if !level(pool, known, second_a, second_b) {
        return false;
    }
    seen::keep(known, at, key);
    true
}

// With a table: for rows past every array of a pass, which an accepted pool has not.
fn level_all(pool: &CheckedPool<'_>, a: usize, b: usize) -> bool
    requires { (a < L (lent pool.now).words) × (b < L (lent pool.now).words) }
    ensures { result ≡ levels_same (lent pool.now) a b }
{
    let mut known = [0usize; 1024];
    level(pool, &mut known, a, b)
}

// In so many steps, which are taken off, and with no table; nothing where they do not do.
pub(crate) fn try_level(
    pool: &CheckedPool<'_>,
    a: usize,
    b: usize,
    steps: &mut usize,
) -> Option<bool>
    requires { (a < L (lent pool.now).words) × (b < L (lent pool.now).words) }
    ensures { Told (levels_same (lent pool.now) a b) result }
{
    *steps = steps.checked_sub(1)?;
    let quick = glance(pool, a, b);
    if quick.is_some() {
        return quick;
    }
    let first_a = pool.words.level(a, LEVEL_FIRST);
    let first_b = pool.words.level(b, LEVEL_FIRST);
    if !try_level(pool, first_a, first_b, steps)? {
        return Some(false);
    }
    let second_a = pool.words.level(a, LEVEL_SECOND);
    let second_b = pool.words.level(b, LEVEL_SECOND);
    try_level(pool, second_a, second_b, steps)
}

// Whether row x is what it owes to be, if what is owed then is so; nothing where there is no room.
fn level_row(pool: &CheckedPool<'_>, owed: &mut [u32], x: usize) -> Option<bool>
    requires { x < L (lent pool.now).words }
    ensures { Stepped (level_shape_at (lent pool.now)) owed.old owed.new result }
{
    let Some(m) = take(owed, x) else {
        return Some(true);
    };
    if pool.words.tables.levels <= m {
        return None;
    }
    let quick = glance(pool, x, m);
    if quick.is_some() {
        return quick;
    }
    let first = pool.words.level(x, LEVEL_FIRST);
    if !link(owed, first, pool.words.level(m, LEVEL_FIRST)) {
        return None;
    }
    let second = pool.words.level(x, LEVEL_SECOND);
    if !link(owed, second, pool.words.level(m, LEVEL_SECOND)) {
        return None;
    }
    Some(true)
}

// All that the rows below n owe, from the top down.
pub(crate) fn level_rows(pool: &CheckedPool<'_>, owed: &mut [u32], n: usize) -> Option<bool>
    requires { n ≤ L (lent pool.now).words }
    ensures { Settled (level_shape_at (lent pool.now)) owed.old result }
{
    let mut end = n;
    while let Some(x) = highest(owed, end) {
        if !level_row(pool, owed, x)? {
            return Some(false);
        }
        end = x;
    }
    if is_clear(owed) { Some(true) } else { None }
}

// One pass over the rows, with an array of N rows. It stays in a function of its own: whoever asks pays for it only where it comes to a pass.
#[inline(never)]
fn pass_levels<const N: usize>(pool: &CheckedPool<'_>, a: usize, b: usize) -> Option<bool>
    requires { (a < L (lent pool.now).words) × (b < L (lent pool.now).words) × (N < 65537) }
    ensures { Told (levels_same (lent pool.now) a b) result }
{
    let mut owed = [0u32; N];
    if !link(&mut owed, a, b) {
        return None;
    }
    level_rows(pool, &mut owed, a.max(b) + 1)
}

// Most levels are compared in few steps; else one pass over the rows tells. The array is as long as the pool asks, so that a small one
// clears little. Not by `or_else`, as in `difference::trees::sweep_all`.
pub fn same_level(pool: &CheckedPool<'_>, a: usize, b: usize) -> bool
    requires { (a < L (lent pool.now).words) × (b < L (lent pool.now).words) }
    ensures { result ≡ levels_same (lent pool.now) a b }
{
    let mut steps = 256;
    if let Some(answer) = try_level(pool, a, b, &mut steps) {
        return answer;
    }
    if let Some(answer) = pass_levels::<256>(pool, a, b) {
        return answer;
    }
    if let Some(answer) = pass_levels::<65536>(pool, a, b) {
        return answer;
    }
    level_all(pool, a, b)
}
