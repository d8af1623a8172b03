// A pool as it is given: its bytes, and its words with their tables.
ghost use Rattle.std.specs.Prelude.{◌≡◌, List, ℕ};
ghost use Rattle.pool.specs.Tables.{string_at};
ghost use Rattle.pool.specs.Areas.{over};
ghost use Rattle.pool.specs.Views.{read};

use crate::fields::{STRING_LENGTH, STRING_OFFSET};
use crate::names::Names;
use crate::words::Words;

// The strings and names stand in `names`, the rest in `words`: the same area, of which the proofs speak apart.
#[derive(Clone, Copy)]
pub struct Pool<'a> {
    pub bytes: &'a [u8],
    pub names: Names<'a>,
    pub words: Words<'a>,
}

impl<'a> Pool<'a> {
    pub fn of(bytes: &'a [u8], words: &'a [u32]) -> Pool<'a>
        ensures { read result ≡ Rattle.pool.specs.Tables.pool bytes.now words.now }
    {
        Pool {
            bytes,
            names: Names::of(words),
            words: Words::of(words),
        }
    }
}

// The bytes of string row r; what lies past the area is left out. The bytes alone have to live as long as the part, so they are lent apart.
pub fn string_at<'a>(bytes: &'a [u8], names: &Names<'_>, r: usize) -> &'a [u8]
    ensures { (ws : List ℕ) → result.now ≡ string_at (over bytes.now names.now.words.now ws) r }
{
    let offset = names.string(r, STRING_OFFSET);
    let size = names.string(r, STRING_LENGTH);
    let from = offset.min(bytes.len());
    let to = (offset + size).min(bytes.len());
    &bytes[from..to]
}
