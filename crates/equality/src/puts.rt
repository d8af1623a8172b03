// The parts of two rows of one kind, which have to be equal, put aside: false where there is no room for them.
ghost use Rattle.std.specs.Prelude.{◌≡◌, true, ◌↔◌};
ghost use Rattle.occurrence.specs.Parts.{part_of};
ghost use Rattle.equality.specs.Sweep.{PartBy, PartsBy, PutParts, LinkParts};

use links::{link, put};
use occurrence::parts::Parts;
use pool::words::Words;

// One part of each, or of neither: `put` is told whether they stand under one binder more.
fn put_part<F: FnMut(bool, usize, usize) -> bool>(
    put: &mut F,
    below: bool,
    x: Option<usize>,
    y: Option<usize>,
) -> bool
    requires callable { F.IsAlwaysCallable put.old }
    requires alike { part_of x ≡ 0 ↔ part_of y ≡ 0 }
    ensures callable { F.IsAlwaysCallable put.new }
    ensures by { result ≡ true → PartBy (λ b u w f g. F.step f b u w true g) below (part_of x) (part_of y) put.old put.new }
{
    let (Some(x), Some(y)) = (x, y) else {
        return true;
    };
    put(below, x, y)
}

// All parts of rows a and b, of a's kind.
fn each_part<F: FnMut(bool, usize, usize) -> bool>(
    words: &Words<'_>,
    a: usize,
    b: usize,
    put: &mut F,
) -> bool
    requires { F.IsAlwaysCallable put.old }
    ensures { result ≡ true → PartsBy (λ b u w f g. F.step f b u w true g) words.now.words.now a b put.old put.new }
{
    let kind = words.expr_kind(a);
    let of_a = Parts::of(words, a, kind);
    let of_b = Parts::of(words, b, kind);
    put_part(put, false, of_a.first, of_b.first)
        && put_part(put, false, of_a.second, of_b.second)
        && put_part(put, true, of_a.body, of_b.body)
}

// What stands under one binder more goes into the second array.
pub fn put_parts(
    words: &Words<'_>,
    cur: &mut [u32],
    next: &mut [u32],
    owed: &mut [u32],
    a: usize,
    b: usize,
) -> bool
    ensures { result ≡ true → PutParts words.now.words.now a b cur.old next.old owed.old
        cur.new next.new owed.new }
{
    let mut aside = |below: bool, x: usize, y: usize| {
        if below {
            put(next, owed, x, y)
        } else {
            put(cur, owed, x, y)
        }
    };
    each_part(words, a, b, &mut aside)
}

pub fn link_parts(words: &Words<'_>, owed: &mut [u32], a: usize, b: usize) -> bool
    ensures { result ≡ true → LinkParts words.now.words.now a b owed.old owed.new }
{
    let mut aside = |_: bool, x: usize, y: usize| link(owed, x, y);
    each_part(words, a, b, &mut aside)
}
