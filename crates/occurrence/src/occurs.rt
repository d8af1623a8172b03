// Whether a loose variable occurs in the tree of a row.
ghost use Rattle.std.specs.Prelude.{◌≡◌, ◌<◌, ◌≤◌};
ghost use Rattle.pool.specs.Views.{lent};
ghost use Rattle.pool.specs.Tables.{E};
ghost use Rattle.pool.specs.Tree.{occurs};
ghost use Rattle.pool.specs.Unfold.{expr_at};
ghost use Rattle.occurrence.specs.Parts.{part_of, occurs_at};
ghost use Rattle.occurrence.specs.Asked.{Told, AtOnce, EitherWay};

use super::parts::Parts;
use super::sweep;
use pool::checked::CheckedPool;
use pool::fields::EXPR_LOOSE;
use pool::kinds::ExprKind;

// What a row tells by itself, by its greatest loose variable, beside which a variable has no other one; nothing where its parts say.
#[inline(always)]
fn at_once(pool: &CheckedPool<'_>, r: usize, i: usize) -> Option<bool>
    requires { r < E (lent pool.now).words }
    ensures { AtOnce (lent pool.now) r i result }
{
    let loose = pool.words.expr(r, EXPR_LOOSE);
    if loose <= i {
        return Some(false);
    }
    if loose == i + 1 {
        return Some(true);
    }
    if pool.words.expr_kind(r) == Some(ExprKind::Var) {
        return Some(false);
    }
    None
}

// Which of the two parts under the same variables a search goes through first.
#[derive(Clone, Copy)]
enum Way {
    Forward,
    Backward,
}

// The two parts, the one that comes first before the other.
#[derive(Clone, Copy)]
struct Order {
    near: Option<usize>,
    far: Option<usize>,
}

fn in_order(parts: &Parts, way: Way) -> Order
    ensures { EitherWay (part_of parts.now.first) (part_of parts.now.second) (part_of result.near) (part_of result.far) }
{
    match way {
        Way::Forward => Order {
            near: parts.first,
            far: parts.second,
        },
        Way::Backward => Order {
            near: parts.second,
            far: parts.first,
        },
    }
}

// What a part tells by itself: that the variable does not occur where there is none.
#[inline(always)]
fn part_at_once(pool: &CheckedPool<'_>, part: Option<usize>, i: usize) -> Option<bool>
    requires { part_of part ≤ E (lent pool.now).words }
    ensures { Told (occurs_at (lent pool.now) i (part_of part)) result }
{
    match part {
        Some(r) => at_once(pool, r, i),
        None => Some(false),
    }
}

// In so many steps, one for each row that is met, which are taken off, and with no table; nothing where they do not do. The search goes on
// into a body, and where there is none into the part that is left, by the loop: of long chains of binders, and of arguments that tell at
// once, no call waits for another one.
#[cycle(try_row)]
fn try_row(pool: &CheckedPool<'_>, r: usize, i: usize, way: Way, steps: &mut usize) -> Option<bool>
    requires { r < E (lent pool.now).words }
    ensures { Told (occurs i (expr_at (lent pool.now) r)) result }
{
    let mut part = Some(r);
    let mut i = i;
    while let Some(row) = part {
        *steps = steps.checked_sub(1)?;
        let told = at_once(pool, row, i);
        if told.is_some() {
            return told;
        }
        let parts = Parts::of(&pool.words, row, pool.words.expr_kind(row));
        let Order { near, far } = in_order(&parts, way);
        // What tells at once is asked before the nearer part is searched.
        let beyond = part_at_once(pool, far, i);
        if beyond == Some(true) {
            return Some(true);
        }
        if beyond == Some(false) && parts.body.is_none() {
            part = near;
            continue;
        }
        if try_part(pool, near, i, way, steps)? {
            return Some(true);
        }
        if parts.body.is_none() {
            part = far;
            continue;
        }
        if try_part(pool, far, i, way, steps)? {
            return Some(true);
        }
        part = parts.body;
        i += 1;
    }
    Some(false)
}

// Inlined, so that a part that tells at once costs no call.
#[cycle(try_row)]
#[inline(always)]
fn try_part(
    pool: &CheckedPool<'_>,
    part: Option<usize>,
    i: usize,
    way: Way,
    steps: &mut usize,
) -> Option<bool>
    requires { part_of part ≤ E (lent pool.now).words }
    ensures { Told (occurs_at (lent pool.now) i (part_of part)) result }
{
    let Some(r) = part else {
        return Some(false);
    };
    let told = at_once(pool, r, i);
    if told.is_some() {
        *steps = steps.checked_sub(1)?;
        return told;
    }
    try_row(pool, r, i, way, steps)
}

// The search with no end to its steps, for rows past every array of a sweep: an accepted pool has none.
fn search(pool: &CheckedPool<'_>, part: Option<usize>, i: usize) -> bool
    requires { part_of part ≤ E (lent pool.now).words }
    ensures { result ≡ occurs_at (lent pool.now) i (part_of part) }
{
    let Some(r) = part else {
        return false;
    };
    if let Some(told) = at_once(pool, r, i) {
        return told;
    }
    let parts = Parts::of(&pool.words, r, pool.words.expr_kind(r));
    search(pool, parts.first, i) || search(pool, parts.second, i) || search(pool, parts.body, i + 1)
}

// One sweep over the rows up to r. The arrays are as long as the pool asks, so that a small one clears little.
fn sweep_all(pool: &CheckedPool<'_>, r: usize, i: usize) -> bool
    requires { r < E (lent pool.now).words }
    ensures { result ≡ occurs i (expr_at (lent pool.now) r) }
{
    if pool.words.expr(r, EXPR_LOOSE) <= i {
        return false;
    }
    if r < 256 {
        return sweep::swept::<256>(&pool.words, r, i);
    }
    if r < 4096 {
        return sweep::swept::<4096>(&pool.words, r, i);
    }
    if r < 65536 {
        return sweep::swept::<65536>(&pool.words, r, i);
    }
    search(pool, Some(r), i)
}

// Most questions are answered in few steps, forward, or backward, since the part that tells may stand on either side of one that takes
// long. Where they are not, 22 times as many are tried forward, if a sweep would go over more rows than were tried; of so few rows a sweep
// takes less than many steps do.
pub fn has_var(pool: &CheckedPool<'_>, r: usize, i: usize) -> bool
    requires { r < E (lent pool.now).words }
    ensures { result ≡ occurs i (expr_at (lent pool.now) r) }
{
    if let Some(answer) = try_row(pool, r, i, Way::Forward, &mut 256) {
        return answer;
    }
    let mut backward = if r <= 256 { r / 2 } else { 512 };
    if let Some(answer) = try_row(pool, r, i, Way::Backward, &mut backward) {
        return answer;
    }
    if 256 < r {
        if let Some(answer) = try_row(pool, r, i, Way::Forward, &mut 5632) {
            return answer;
        }
    }
    sweep_all(pool, r, i)
}
