// What a print does once check has accepted the pool, and root and sizes are found to be within their limits.
ghost use Rattle.std.specs.Prelude.{◌≡◌, ◌<◌, ◌≤◌, length};
ghost use Rattle.pool.specs.Tables.{S, N, T};
ghost use Rattle.pool.specs.Views.{lent};
ghost use Rattle.notation.specs.Tables.{Operators};
ghost use Rattle.binders.specs.Options.{options};
ghost use Rattle.declarations.specs.Roots.{root_doc};
ghost use Rattle.lister.specs.Prints.{print_doc};
ghost use Rattle.lister.specs.Frames.{Prints};
ghost use Rattle.lister.specs.Stages.{Begins, WalkEnds, finished};

use crate::error::PrintError;
use binders::printer::Printer;
use declarations::listing::{Root, print};
use document::accepted::AcceptedDocument;
use document::sink::{Sink, clear};
use document::written::Written;
use layout::{Counts, layout_accepted};
use notation::operators::operators;
use pool::checked::CheckedPool;
use pool::pool::Pool;

// What follows the walk: a refused one leaves both document areas zero; else the document is laid out.
fn finish(
    written: Written,
    width: usize,
    rows: &mut [u32],
    text: &mut [u8],
    listing: &mut [u8],
) -> Result<Counts, PrintError>
    requires { WalkEnds written width rows.old text.old }
    ensures { Prints rows text listing result (finished written width) }
{
    if let Some(stop) = written.stop {
        clear(rows, text);
        return Err(PrintError::from(stop));
    }
    let document = AcceptedDocument {
        rows,
        count: written.rows,
        text,
        total: written.text,
    };
    // Not by `map_err`: the check takes no fact from its closure.
    match layout_accepted(&document, width, listing) {
        Ok(counts) => Ok(counts),
        Err(_) => Err(PrintError::Listing),
    }
}

// The print of a root, with the operators of the pool's names in a table by name row, which is empty where there is no notation.
fn print_with(
    pool: CheckedPool<'_>,
    operators: &[u32],
    root: Root,
    indent: usize,
    width: usize,
    rows: &mut [u32],
    text: &mut [u8],
    listing: &mut [u8],
) -> Result<Counts, PrintError>
    requires begins { Begins (lent pool) root indent width }
    requires told { Operators (lent pool) operators.now }
    requires none { length operators.now ≡ 0 → T (lent pool).words ≡ 0 }
    ensures { Prints rows text listing result (print_doc (root_doc root (options indent (lent pool.entry)) (lent pool.entry)) width) }
{
    let p = Printer {
        pool,
        operators,
        indent: indent as u32,
    };
    let mut sink = Sink::new(rows, text);
    print(&p, &mut sink, root);
    let written = sink.written;
    finish(written, width, rows, text, listing)
}

// The same with a table of SIZE entries, at least as many as there are strings and names. Not inlined: the tables would stand in the
// frame of every print.
#[inline(never)]
fn print_in<const SIZE: usize>(
    pool: CheckedPool<'_>,
    root: Root,
    indent: usize,
    width: usize,
    rows: &mut [u32],
    text: &mut [u8],
    listing: &mut [u8],
) -> Result<Counts, PrintError>
    requires begins { Begins (lent pool) root indent width }
    requires strings { S (lent pool).names ≤ SIZE }
    requires names { N (lent pool).names ≤ SIZE }
    requires some { 0 < SIZE }
    requires small { SIZE ≤ 65536 }
    ensures { Prints rows text listing result (print_doc (root_doc root (options indent (lent pool.entry)) (lent pool.entry)) width) }
{
    let mut table = [0u32; SIZE];
    let given = Pool {
        bytes: pool.bytes,
        names: pool.names,
        words: pool.words,
    };
    // True, as check has refused a name that is given twice.
    operators::<SIZE>(&given, &mut table);
    print_with(pool, &table, root, indent, width, rows, text, listing)
}

// A root that the pool has, at an indent and a width within their limits. The table of operators is no longer than need be, since all of
// it is cleared; there is none where the pool has no notation.
pub(crate) fn print_checked(
    pool: CheckedPool<'_>,
    root: Root,
    indent: usize,
    width: usize,
    rows: &mut [u32],
    text: &mut [u8],
    listing: &mut [u8],
) -> Result<Counts, PrintError>
    requires { Begins (lent pool) root indent width }
    ensures { Prints rows text listing result (print_doc (root_doc root (options indent (lent pool.entry)) (lent pool.entry)) width) }
{
    if pool.words.tables.notation == 0 {
        return print_with(pool, &[], root, indent, width, rows, text, listing);
    }
    let names = pool.names.tables;
    match names.strings.max(names.names) {
        0..=64 => print_in::<64>(pool, root, indent, width, rows, text, listing),
        65..=512 => print_in::<512>(pool, root, indent, width, rows, text, listing),
        513..=4096 => print_in::<4096>(pool, root, indent, width, rows, text, listing),
        _ => print_in::<65536>(pool, root, indent, width, rows, text, listing),
    }
}
