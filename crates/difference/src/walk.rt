// The walk from the back: two rows, then their bodies, their second parts and their first ones. What it finds equal is kept,
// so that no two rows are walked through twice; only where the first one is lifted nothing is kept.
ghost use Rattle.std.specs.Prelude.{◌≡◌, true, None};
ghost use Rattle.pool.specs.Views.{lent};
ghost use Rattle.occurrence.specs.Parts.{part_of};
ghost use Rattle.difference.specs.Walks.{is_plain, KeepsIf, AtOnce, TwoRows, TwoParts, pair_unless, Walked};

use super::classes::{same_class, unite};
use compare::trees::same_fields;
use occurrence::parts::Parts;
use pool::checked::CheckedPool;
use pool::fields::EXPR_LOOSE;
use pool::words::Words;

// What a comparison has found: the first pair of rows that differ; that all is equal; or no pair, where no step was left or none was looked
// for.
#[derive(Clone, Copy, Debug, PartialEq, Eq)]
pub enum Found {
    Differ { first: usize, second: usize },
    Equal,
    Unknown,
}

// Whether lifting by d from c on leaves the tree of row a as it is.
fn is_plain(words: &Words<'_>, d: usize, a: usize, c: usize) -> bool
    ensures { result ≡ is_plain words.now.words.now d c a }
{
    d == 0 || words.expr(a, EXPR_LOOSE) <= c
}

// Whether two rows are equal, as far as they say it by themselves: by their kinds and fields, and by what is known. None where their parts say.
fn at_once(
    pool: &CheckedPool<'_>,
    known: bool,
    d: usize,
    a: usize,
    b: usize,
    c: usize,
) -> Option<bool>
    requires { TwoRows (lent pool.now) known a b }
    ensures { AtOnce (lent pool.now) d c a b result }
{
    if known && is_plain(&pool.words, d, a, c) {
        return Some(true);
    }
    let kind = pool.words.expr_kind(a);
    if kind != pool.words.expr_kind(b) {
        return Some(false);
    }
    if !same_fields(pool, d, a, b, c, kind) {
        return Some(false);
    }
    None
}

// What was found equal is kept.
fn keep_equal(
    words: &Words<'_>,
    kept: &mut [u32],
    found: Found,
    d: usize,
    a: usize,
    b: usize,
    c: usize,
)
    ensures { KeepsIf words.now.words.now kept.old kept.new found d c a b }
{
    if found == Found::Equal && is_plain(words, d, a, c) {
        unite(kept, a, b);
    }
}

// One step less, where there is a limit; false where none is left.
fn spend(steps: &mut Option<usize>) -> bool
    ensures { steps.old ≡ None → (result ≡ true) × (steps.new ≡ None) }
{
    let Some(left) = *steps else {
        return true;
    };
    *steps = Some(left.saturating_sub(1));
    0 < left
}

// The pair of rows, unless they are equal.
fn pair_unless(equal: bool, first: usize, second: usize) -> Found
    ensures { result ≡ pair_unless equal first second }
{
    if equal {
        return Found::Equal;
    }
    Found::Differ { first, second }
}

// Two parts, the first one lifted by d from c on; in a number of steps, where there is a limit. What travels along is lent one by one: of a
// struct that held the slice and the steps each call would have to say that it still holds these.
pub(crate) fn walk(
    pool: &CheckedPool<'_>,
    kept: &mut [u32],
    steps: &mut Option<usize>,
    d: usize,
    x: Option<usize>,
    y: Option<usize>,
    c: usize,
) -> Found
    requires { TwoParts (lent pool.now) kept.old (part_of x) (part_of y) c }
    ensures { Walked (lent pool.now) d c (part_of x) (part_of y) steps.old steps.new kept.new result }
{
    let (Some(a), Some(b)) = (x, y) else {
        return pair_unless(x == y, 0, 0);
    };
    if !spend(steps) {
        return Found::Unknown;
    }
    let known = same_class(kept, a, b);
    if let Some(same) = at_once(pool, known, d, a, b, c) {
        return pair_unless(same, a, b);
    }
    let kind = pool.words.expr_kind(a);
    let of_a = Parts::of(&pool.words, a, kind);
    let of_b = Parts::of(&pool.words, b, kind);
    let body = walk(pool, kept, steps, d, of_a.body, of_b.body, c + 1);
    if body != Found::Equal {
        return body;
    }
    let second = walk(pool, kept, steps, d, of_a.second, of_b.second, c);
    if second != Found::Equal {
        return second;
    }
    let first = walk(pool, kept, steps, d, of_a.first, of_b.first, c);
    keep_equal(&pool.words, kept, first, d, a, b, c);
    first
}
