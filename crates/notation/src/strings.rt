// The classes of strings: by their bytes.
ghost use Rattle.std.specs.Prelude.{◌≡◌};
ghost use Rattle.pool.specs.Views.{read};
ghost use Rattle.notation.specs.Classes.{string_table};

use crate::classes::Classes;
use crate::compared::Compared;
use crate::hashes::part_hash;
use pool::fields::{STRING_LENGTH, STRING_OFFSET};
use pool::pool::Pool;

pub(crate) struct StringRows;

impl Classes for StringRows {
    ghost table = { string_table };

    fn rows(pool: &Pool<'_>) -> usize {
        pool.names.tables.strings
    }

    // Of all bytes. Strings can overlap, so all of them together can be far longer than the area: what is read for a hash are the bytes from
    // the mark before each of its two ends.
    fn hash(pool: &Pool<'_>, known: &[u32], _classes: &[u32], r: usize) -> usize {
        let from = pool.names.string(r, STRING_OFFSET);
        let size = pool.names.string(r, STRING_LENGTH);
        size + part_hash(pool.bytes, known, from, from + size)
    }

    // Strings that begin together are not read, and of others only what is not known of comparisons before.
    fn same(
        pool: &Pool<'_>,
        _known: &[u32],
        _classes: &[u32],
        compared: &mut Compared,
        r: usize,
        c: usize,
    ) -> bool {
        let names = &pool.names;
        let size = names.string(r, STRING_LENGTH);
        if names.string(c, STRING_LENGTH) != size {
            return false;
        }
        let from = names.string(c, STRING_OFFSET);
        compared.same(
            pool.bytes,
            from,
            names.string(r, STRING_OFFSET) - from,
            size,
        )
    }
}
