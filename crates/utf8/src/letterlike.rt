// The letterlike classes of a code point, and which strings of a name are plain.
ghost use Rattle.std.specs.Prelude.{◌≡◌, ◌<◌, ◌&&◌, ◌||◌, not, cond, ◌∷◌, [], eqb};
ghost use Rattle.utf8.specs.Utf8.{within, points};
ghost use Rattle.utf8.specs.Ranges.{in_range};
ghost use Rattle.utf8.specs.Letterlike.{not_greek, is_start, is_rest, letterlike, same_bytes, plain};

use crate::scan::Scan;
use std::ops::Range;

// The numbers of the ranges, which stand in a constant table by number: document 01 names this form.
const GREEK0: usize = 0;

const GREEK1: usize = 1;

const GREEK2: usize = 2;

const COPTIC: usize = 3;

const LETTERLIKE_SYMBOL: usize = 4;

const SUBSCRIPT0: usize = 5;

const SUBSCRIPT1: usize = 6;

const SUBSCRIPT2: usize = 7;

// The ranges of letterlike characters by number, ends excluded on the right.
const RANGES: [Range<u32>; 8] = [
    0x3b1..0x3c9,
    0x391..0x3a9,
    0x1f00..0x1ffe,
    0x3ca..0x3fb,
    0x2100..0x214f,
    0x2080..0x2089,
    0x2090..0x209c,
    0x1d62..0x1d6a,
];

#[tactic(auto, unfolding(crate::specs::Ranges::in_range))]
fn in_range(kind: usize, c: u32) -> bool
    requires { kind < 8 }
    ensures { result ≡ in_range kind c }
{
    RANGES[kind].contains(&c)
}

// λ, Π and Σ.
fn is_not_greek(c: u32) -> bool
    ensures { result ≡ not_greek c }
{
    matches!(c, 0x3bb | 0x3a0 | 0x3a3)
}

#[tactic(auto, unfolding(crate::specs::Ranges::in_range))]
fn is_greek(c: u32) -> bool
    ensures { result ≡ not (not_greek c) && (within 0x3b1 0x3c9 c || (within 0x391 0x3a9 c || within 0x1f00 0x1ffe c)) }
{
    !is_not_greek(c) && (in_range(GREEK0, c) || in_range(GREEK1, c) || in_range(GREEK2, c))
}

// An ASCII letter or "_".
fn is_ascii_start(c: u32) -> bool
    ensures { result ≡ within 65 91 c || (within 97 123 c || eqb c 95) }
{
    matches!(c, 65..=90 | 97..=122 | 95)
}

// An ASCII digit, "!", "?" or "'".
fn is_ascii_rest(c: u32) -> bool
    ensures { result ≡ within 48 58 c || (eqb c 33 || (eqb c 63 || eqb c 39)) }
{
    matches!(c, 48..=57 | 33 | 63 | 39)
}

#[tactic(auto, unfolding(crate::specs::Ranges::in_range, crate::specs::Letterlike::is_start))]
pub fn is_letterlike_start(c: u32) -> bool
    ensures { result ≡ is_start c }
{
    is_ascii_start(c) || is_greek(c) || in_range(COPTIC, c) || in_range(LETTERLIKE_SYMBOL, c)
}

#[tactic(auto, unfolding(crate::specs::Ranges::in_range))]
fn is_subscript(c: u32) -> bool
    ensures { result ≡ within 0x2080 0x2089 c || (within 0x2090 0x209c c || within 0x1d62 0x1d6a c) }
{
    in_range(SUBSCRIPT0, c) || in_range(SUBSCRIPT1, c) || in_range(SUBSCRIPT2, c)
}

#[tactic(auto, unfolding(crate::specs::Letterlike::is_rest))]
pub fn is_letterlike_rest(c: u32) -> bool
    ensures { result ≡ is_rest c }
{
    is_letterlike_start(c) || is_ascii_rest(c) || is_subscript(c)
}

// What the first character of a plain string has to be, and the others.
fn may_stand(first: bool, c: u32) -> bool
    ensures { result ≡ cond first (is_start c) (is_rest c) }
{
    if first {
        is_letterlike_start(c)
    } else {
        is_letterlike_rest(c)
    }
}

// By a scan of its own, with a flag for the first character: it is defined for bytes that are no UTF-8 too, which std's `chars` is not.
fn is_letterlike(s: &[u8]) -> bool
    ensures { result ≡ letterlike (points s.now) }
{
    let mut scan = Scan::start();
    let mut first = true;
    for b in s {
        if let Some(c) = scan.take(*b) {
            if !may_stand(first, c) {
                return false;
            }
            first = false;
        }
    }
    true
}

// Whether a string component needs no « ».
pub fn ok_str(s: &[u8]) -> bool
    ensures { result ≡ plain s.now }
{
    s == b"_@".as_slice() || is_letterlike(s)
}
