// The parts of the areas that are handed out.
ghost use Rattle.std.specs.Prelude.{◌≡◌};
ghost use Rattle.basics.specs.Lent.{was};
ghost use Rattle.lister.specs.Handing.{has_text, text_span, has_string, string_span, part_of};
ghost use Rattle.lister.specs.Frames.{given};

use crate::Part;
use crate::source::Source;
use document::check::Document;
use document::kinds::RowKind;
use document::measures::{kind_at, word_at};
use pool::fields::{STRING_LENGTH, STRING_OFFSET};

// The bytes of a part; what lies past the end is left out.
pub fn part(s: &[u8], p: Part) -> &[u8]
    ensures { result.now ≡ part_of s.now p }
{
    let from = p.offset.min(s.len());
    let to = from + p.size.min(s.len() - from);
    &s[from..to]
}

// Whether the document is accepted and has the text row r.
fn has_text(document: &Document<'_>, r: usize) -> bool
    ensures { result ≡ has_text document.now.rows.now document.now.count document.now.text.now document.now.total r }
{
    if !document.counts_ok() {
        return false;
    }
    if document.fault().is_some() {
        return false;
    }
    r < document.count && kind_at(document.rows, r) == Some(RowKind::Text)
}

// Where its bytes lie in the text area: nothing, at offset 0, unless the document is accepted and has that row.
pub fn text_span(document: &Document<'_>, r: usize) -> Part
    ensures { result ≡ text_span document.now.rows.now document.now.count document.now.text.now document.now.total r }
{
    if !has_text(document, r) {
        return Part { offset: 0, size: 0 };
    }
    Part {
        offset: word_at(document.rows, r, 1),
        size: word_at(document.rows, r, 2),
    }
}

// Where the bytes of string row r lie in `bytes`: nothing, at offset 0, unless the pool is accepted and has that row.
pub fn string_span(source: Source<'_>, r: usize) -> Part
    ensures { result ≡ string_span (given source.entry) r }
{
    let Ok(pool) = pool_check::check(source.bytes, source.words) else {
        return Part { offset: 0, size: 0 };
    };
    if pool.names.tables.strings <= r {
        return Part { offset: 0, size: 0 };
    }
    Part {
        offset: pool.names.string(r, STRING_OFFSET),
        size: pool.names.string(r, STRING_LENGTH),
    }
}
