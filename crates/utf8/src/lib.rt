// UTF-8 of a byte slice, its code points, and the letterlike classes of a code point.
#![tactic(auto)]

pub mod letterlike;
mod scan;

ghost use Rattle.std.specs.Prelude.{◌≡◌};
ghost use Rattle.utf8.specs.Utf8.{utf8};

pub use letterlike::{is_letterlike_rest, is_letterlike_start, ok_str};

// Whether the bytes are UTF-8: no surrogate, no longer form than needed, nothing above U+10FFFF.
pub fn is_utf8(s: &[u8]) -> bool
    ensures { result ≡ utf8 s.now }
{
    std::str::from_utf8(s).is_ok()
}
