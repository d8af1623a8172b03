// The calls: check, print, the two layouts of a given document, handing out, comparing two expression rows.
#![tactic(auto)]

ghost use Rattle.std.specs.Prelude.{◌≡◌};
ghost use Rattle.comparison.specs.Call.{comparison};
ghost use Rattle.layout.specs.Call.{outcome};
ghost use Rattle.layout.specs.Frames.{Lists};
ghost use Rattle.layout_pending.specs.Call.{outcome_pending};
ghost use Rattle.layout_pending.specs.Frames.{ListsPending};
ghost use Rattle.pool.specs.Views.{lent};
ghost use Rattle.pool_check.specs.Stages.{as_verdict};
ghost use Rattle.lister.specs.Source.{judged};
ghost use Rattle.lister.specs.Prints.{sizes_ok, print, has_root};
ghost use Rattle.lister.specs.Handing.{span_of, hand_out};
ghost use Rattle.lister.specs.Frames.{given, given_both, Prints};

use checked::print_checked;
use comparison::{CompareError, Pair};
use document::check::Document;
use handing::{part, string_span, text_span};
use layout::{Counts, LayoutError};
use layout_pending::PendingError;
use pool::checked::CheckedPool;
use pool_check::PoolError;

mod checked;
pub mod error;
mod handing;
pub mod source;

pub use declarations::listing::Root;
pub use error::PrintError;
pub use source::Source;

// What is handed out: the text of a document's row, or a pool's string.
#[derive(Clone, Copy, Debug, PartialEq, Eq)]
pub enum Handed {
    Text { row: usize },
    String { row: usize },
}

// Where a part of an area lies: so many bytes from an offset on.
#[derive(Clone, Copy, Debug, PartialEq, Eq)]
pub struct Part {
    pub offset: usize,
    pub size: usize,
}

// "indent over 64 or width over 65,535": the contrary.
fn sizes_ok(indent: usize, width: usize) -> bool
    ensures { result ≡ sizes_ok indent width }
{
    indent <= 64 && width <= 65535
}

// Whether a pool has a root.
fn has_root(pool: &CheckedPool<'_>, root: Root) -> bool
    ensures { result ≡ has_root root (lent pool.now) }
{
    match root {
        Root::Expr { row } => row < pool.words.tables.exprs,
        Root::Declar { row } => row < pool.words.tables.declars,
    }
}

// Prints a root: its document into `rows` and `text`, its listing into `listing`. The three areas are lent one by one: of a struct of them
// the check asks for a whole proof by hand in `finish`, which reads two while it lends the third.
pub fn print(
    source: Source<'_>,
    root: Root,
    indent: usize,
    width: usize,
    rows: &mut [u32],
    text: &mut [u8],
    listing: &mut [u8],
) -> Result<Counts, PrintError>
    ensures { Prints rows text listing result (print (given source.entry) root indent width) }
{
    let pool = pool_check::check(source.bytes, source.words)?;
    if !has_root(&pool, root) {
        return Err(PrintError::Root);
    }
    if !sizes_ok(indent, width) {
        return Err(PrintError::Size);
    }
    print_checked(pool, root, indent, width, rows, text, listing)
}

// The pool, where it is accepted, and else the first of the numbers 1 to 4 and 31 that refuses it, with its place.
pub fn check(source: Source<'_>) -> Result<CheckedPool<'_>, PoolError>
    ensures { as_verdict result ≡ judged (given source.entry) }
{
    pool_check::check(source.bytes, source.words)
}

// Lays out a given document.
pub fn layout(
    document: &Document<'_>,
    width: usize,
    listing: &mut [u8],
) -> Result<Counts, LayoutError>
    ensures { Lists listing result (outcome document.now.rows.now document.now.count document.now.text.now document.now.total width) }
{
    layout::layout(document, width, listing)
}

// Lays it out without deep calls: the rows that are still to be laid out stand in `pending`, three words for each row of the document.
pub fn layout_pending(
    document: &Document<'_>,
    width: usize,
    pending: &mut [u32],
    listing: &mut [u8],
) -> Result<Counts, PendingError>
    ensures { ListsPending pending listing result
        (outcome_pending document.now.rows.now document.now.count document.now.text.now document.now.total width) }
{
    layout_pending::layout_pending(document, width, pending, listing)
}

// Where the text of a document's row lies in its text, or a pool's string in `bytes`: nothing, at offset 0, unless document or pool is
// accepted and has that row.
pub fn hand_out_span(source: Source<'_>, document: &Document<'_>, what: Handed) -> Part
    ensures { result ≡ span_of (given source.entry) document.now.rows.now document.now.count document.now.text.now
        document.now.total what }
{
    match what {
        Handed::Text { row } => text_span(document, row),
        Handed::String { row } => string_span(source, row),
    }
}

// Hands out that part of the document's text or of `bytes`. They are lent one by one, as these two alone have to live as long as the part.
pub fn hand_out<'a>(
    bytes: &'a [u8],
    words: &[u32],
    rows: &[u32],
    count: usize,
    text: &'a [u8],
    total: usize,
    what: Handed,
) -> &'a [u8]
    ensures { result.now ≡ hand_out (given_both bytes words) rows.now count text.now total what }
{
    let document = Document {
        rows,
        count,
        text,
        total,
    };
    match what {
        Handed::Text { row } => part(text, text_span(&document, row)),
        Handed::String { row } => part(bytes, string_span(Source { bytes, words }, row)),
    }
}

// Compares two expression rows, from the back: the first pair of rows that differ, none where their trees are equal.
pub fn compare(
    source: Source<'_>,
    first: usize,
    second: usize,
) -> Result<Option<Pair>, CompareError>
    ensures { result ≡ comparison source.entry.bytes.now source.entry.words.now first second }
{
    comparison::compare(source.bytes, source.words, first, second)
}
