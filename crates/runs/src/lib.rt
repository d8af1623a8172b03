// The third property is one of the calls: what holds of one call of each print, and of two calls, whatever they are given and lent. And the
// two layouts agree.
#![tactic(auto)]

ghost use Rattle.std.specs.Prelude.{◌≡◌};
ghost use Rattle.basics.specs.Lent.{was, left};
ghost use Rattle.layout_pending.specs.Agreement.{Agree};
ghost use Rattle.third_property.specs.ThirdProperty.{TwoRuns};
ghost use Rattle.runs.specs.Calls.{print_of, run_with, OneCall};

use document::check::Document;
use kind::Kind;
use layout::{Counts, LayoutError};
use layout_pending::PendingError;
use lister::{PrintError, Source, print};

pub mod kind;

// What two calls answer.
#[derive(Clone, Copy, Debug, PartialEq, Eq)]
pub struct Answers {
    pub first: Result<Counts, PrintError>,
    pub second: Result<Counts, PrintError>,
}

// What a call of a print is asked: the pool, the row of its root, and the sizes. The areas that it is lent stay apart
// (see `lister::print`).
#[derive(Clone, Copy)]
pub struct Call<'a> {
    pub source: Source<'a>,
    pub root: usize,
    pub indent: usize,
    pub width: usize,
}

// One call of a print: its clauses, and when it succeeds.
pub fn once(
    kind: Kind,
    call: Call<'_>,
    rows: &mut [u32],
    text: &mut [u8],
    listing: &mut [u8],
) -> Result<Counts, PrintError>
    ensures { OneCall (run_with (print_of kind) call.entry rows text listing result) }
{
    let root = kind.root(call.root);
    print(
        call.source,
        root,
        call.indent,
        call.width,
        rows,
        text,
        listing,
    )
}

// Two calls of a print.
pub fn twice(
    kind: Kind,
    first: Call<'_>,
    rows: &mut [u32],
    text: &mut [u8],
    listing: &mut [u8],
    second: Call<'_>,
    rows2: &mut [u32],
    text2: &mut [u8],
    listing2: &mut [u8],
) -> Answers
    ensures { TwoRuns (run_with (print_of kind) first.entry rows text listing result.first)
        (run_with (print_of kind) second.entry rows2 text2 listing2 result.second) }
{
    let root = kind.root(first.root);
    let one = print(
        first.source,
        root,
        first.indent,
        first.width,
        rows,
        text,
        listing,
    );
    let root = kind.root(second.root);
    let two = print(
        second.source,
        root,
        second.indent,
        second.width,
        rows2,
        text2,
        listing2,
    );
    Answers {
        first: one,
        second: two,
    }
}

// What the two layouts answer.
#[derive(Clone, Copy, Debug, PartialEq, Eq)]
pub struct Layouts {
    pub first: Result<Counts, LayoutError>,
    pub second: Result<Counts, PendingError>,
}

// Both layouts of a given document at one width, in listing areas that held the same.
pub fn layout_both(
    document: &Document<'_>,
    width: usize,
    listing: &mut [u8],
    pending: &mut [u32],
    listing2: &mut [u8],
) -> Layouts
    ensures { was listing ≡ was listing2
        → Agree document.now.count (was pending) (was listing) result.first (left listing) result.second (left listing2) }
{
    let first = lister::layout(document, width, listing);
    let second = lister::layout_pending(document, width, pending, listing2);
    Layouts { first, second }
}
