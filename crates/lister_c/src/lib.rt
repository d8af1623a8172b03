// The calls as C functions, for the static library that `rt lib` makes. A slice is a pointer and a length in elements. Each call
// returns the refusal number, 0 for none, and fills the first eight words of `out`; an `out` that is shorter than eight is left as it is.
#![tactic(auto)]

ghost use Rattle.std.specs.Prelude.{[], ◌∷◌, ◌≡◌};
ghost use Rattle.comparison.specs.Call.{comparison};
ghost use Rattle.comparison.specs.Call as comparisons;
ghost use Rattle.layout.specs.Call.{outcome};
ghost use Rattle.layout_pending.specs.Call.{outcome_pending};
ghost use Rattle.basics.specs.Lent.{was, left};
ghost use Rattle.lister.specs.Source.{judged};
ghost use Rattle.lister.specs.Prints.{print, print_expr, print_declar};
ghost use Rattle.lister.specs.Frames.{given, given_both};
ghost use Rattle.lister_c.specs.Reports.{of_verdict, kind_span, pair_words};
ghost use Rattle.pool_check.specs.Check.{verdict};
ghost use Rattle.lister_c.specs.Frames.{Checks, LaysOut, LaysOutPending, Prints, HandsOut, ComparesRows};

use comparison::{CompareError, Pair};
use document::check::Document;
use lister::{Handed, Part, Root, Source};
use refusals::Refusal;
use reports::{Report, done, fill, no_counts, put_report, put_words, refused};

pub mod refusals;
pub mod reports;

// What check finds.
fn of_check(bytes: &[u8], words: &[u32]) -> Report
    ensures { result ≡ of_verdict (verdict bytes.now words.now) }
{
    match pool_check::check(bytes, words) {
        Ok(_) => done(no_counts()),
        Err(error) => refused(&error),
    }
}

// Whether a pool is accepted.
#[unsafe(no_mangle)]
pub extern "C" fn tilusorgu_check(bytes: &[u8], words: &[u32], out: &mut [u64]) -> u32
    ensures { Checks out result (judged (given_both bytes words)) }
{
    let report = of_check(bytes, words);
    fill(out, report);
    report.number
}

// Lays out a given document.
#[unsafe(no_mangle)]
pub extern "C" fn tilusorgu_layout(
    rows: &[u32],
    count: u64,
    text: &[u8],
    total: u64,
    width: u32,
    listing: &mut [u8],
    out: &mut [u64],
) -> u32
    ensures { LaysOut listing out result (outcome rows.now count text.now total width) }
{
    let document = Document {
        rows,
        count: count as usize,
        text,
        total: total as usize,
    };
    put_report(out, &lister::layout(&document, width as usize, listing))
}

// Lays it out with its pending rows in a lent area, and without deep calls.
#[unsafe(no_mangle)]
pub extern "C" fn tilusorgu_layout_pending(
    rows: &[u32],
    row_count: u64,
    text: &[u8],
    text_count: u64,
    width: u32,
    pending: &mut [u32],
    listing: &mut [u8],
    out: &mut [u64],
) -> u32
    ensures { LaysOutPending pending listing out result (outcome_pending rows.now row_count text.now text_count width) }
{
    let document = Document {
        rows,
        count: row_count as usize,
        text,
        total: text_count as usize,
    };
    put_report(
        out,
        &lister::layout_pending(&document, width as usize, pending, listing),
    )
}

// Prints a root.
fn print_root(
    source: Source<'_>,
    root: Root,
    indent: u32,
    width: u32,
    rows: &mut [u32],
    text: &mut [u8],
    listing: &mut [u8],
    out: &mut [u64],
) -> u32
    ensures { Prints rows text listing out result (print (given source.entry) root indent width) }
{
    let answer = lister::print(
        source,
        root,
        indent as usize,
        width as usize,
        rows,
        text,
        listing,
    );
    put_report(out, &answer)
}

// Prints the expression at row `root`.
#[unsafe(no_mangle)]
pub extern "C" fn tilusorgu_print_expr(
    bytes: &[u8],
    words: &[u32],
    root: u32,
    indent: u32,
    width: u32,
    rows: &mut [u32],
    text: &mut [u8],
    listing: &mut [u8],
    out: &mut [u64],
) -> u32
    ensures { Prints rows text listing out result (print_expr (given_both bytes words) root indent width) }
{
    let source = Source { bytes, words };
    let root = Root::Expr { row: root as usize };
    print_root(source, root, indent, width, rows, text, listing, out)
}

// Prints the declaration at row `root`.
#[unsafe(no_mangle)]
pub extern "C" fn tilusorgu_print_declar(
    bytes: &[u8],
    words: &[u32],
    root: u32,
    indent: u32,
    width: u32,
    rows: &mut [u32],
    text: &mut [u8],
    listing: &mut [u8],
    out: &mut [u64],
) -> u32
    ensures { Prints rows text listing out result (print_declar (given_both bytes words) root indent width) }
{
    let source = Source { bytes, words };
    let root = Root::Declar { row: root as usize };
    print_root(source, root, indent, width, rows, text, listing, out)
}

// Where what a kind hands out lies: 0 the text of a document's row, 1 a pool's string, any other nothing.
#[tactic(auto, unfolding(crate::specs::Reports::kind_span))]
fn kind_span(source: Source<'_>, document: &Document<'_>, kind: u32, row: usize) -> Part
    ensures { result ≡ kind_span (given source.entry) document.now.rows.now document.now.count document.now.text.now document.now.total kind row }
{
    match kind {
        0 => lister::hand_out_span(source, document, Handed::Text { row }),
        1 => lister::hand_out_span(source, document, Handed::String { row }),
        _ => Part { offset: 0, size: 0 },
    }
}

// Hands out the text of a document's row, or a pool's string: where its part of `text` or of `bytes` lies.
#[unsafe(no_mangle)]
pub extern "C" fn tilusorgu_hand_out(
    bytes: &[u8],
    words: &[u32],
    rows: &[u32],
    row_count: u64,
    text: &[u8],
    text_count: u64,
    kind: u32,
    row: u32,
    out: &mut [u64],
) -> u32
    ensures { HandsOut out result (kind_span (given_both bytes words) rows.now row_count text.now text_count kind row) }
{
    let document = Document {
        rows,
        count: row_count as usize,
        text,
        total: text_count as usize,
    };
    let part = kind_span(Source { bytes, words }, &document, kind, row as usize);
    put_words(
        out,
        &[0, 0, part.offset as u64, part.size as u64, 0, 0, 0, 0],
    );
    0
}

// The number of a comparison's answer, 0 for none.
#[tactic(auto, unfolding(comparison::specs::Call::number))]
fn number_of(answer: &Result<Option<Pair>, CompareError>) -> u32
    ensures { result ≡ comparisons.number answer.now }
{
    match answer {
        Ok(_) => 0,
        Err(error) => error.number(),
    }
}

// What it reports: number and place, 1 where the trees are equal, and the two rows.
#[tactic(auto, unfolding(crate::specs::Reports::pair_words, comparison::specs::Call::number, comparison::specs::Call::place))]
fn pair_words(answer: &Result<Option<Pair>, CompareError>) -> [u64; 8]
    ensures { result ≡ pair_words answer.now }
{
    match answer {
        Ok(None) => [0, 0, 1, 0, 0, 0, 0, 0],
        Ok(Some(pair)) => [0, 0, 0, pair.first as u64, pair.second as u64, 0, 0, 0],
        Err(error) => [
            error.number() as u64,
            error.place() as u64,
            0,
            0,
            0,
            0,
            0,
            0,
        ],
    }
}

// Compares two expression rows: 1 where the trees are equal, and the two rows.
#[unsafe(no_mangle)]
pub extern "C" fn tilusorgu_compare(
    bytes: &[u8],
    words: &[u32],
    first: u32,
    second: u32,
    out: &mut [u64],
) -> u32
    ensures { ComparesRows out result (comparison bytes.now words.now first second) }
{
    let answer = lister::compare(Source { bytes, words }, first as usize, second as usize);
    let words = pair_words(&answer);
    put_words(out, &words);
    number_of(&answer)
}
