// The layout of a document at a width (numbers 9, 6 and 22).
#![tactic(auto)]

ghost use Rattle.std.specs.Prelude.{◌≡◌, ◌≤◌};
ghost use Rattle.layout.specs.Call.{doc_of, listed, outcome};
ghost use Rattle.layout.specs.Contract.{admission, reported};
ghost use Rattle.basics.specs.Lent.{was};
ghost use Rattle.layout.specs.Frames.{Lists};

use cursor::Cursor;
use document::accepted::AcceptedDocument;
use document::check::Document;
use listing::Listing;
use rows::lay_out;
use std::error::Error;
use std::fmt;

pub mod area;
pub mod cursor;
pub mod listing;
pub mod rows;

// What is reported of a listing: document rows, text bytes, listing length, lines, longest row, fit tests.
#[derive(Clone, Copy, Debug, PartialEq, Eq)]
pub struct Counts {
    pub rows: usize,
    pub text: usize,
    pub length: usize,
    pub lines: usize,
    pub longest: usize,
    pub tests: usize,
}

// Why a layout is refused: the first faulty row of the document (9), a width over its limit (6), a listing longer than its area (22).
#[derive(Clone, Copy, Debug, PartialEq, Eq)]
pub enum LayoutError {
    Document { row: usize },
    Width,
    Listing,
}

impl fmt::Display for LayoutError {
    fn fmt<W: fmt::Write>(&self, f: &mut fmt::Formatter<W>) -> fmt::Result {
        match self {
            LayoutError::Document { row } => {
                write!(
                    f,
                    "the document breaks a rule at row {row} (0 too where its counts exceed its areas or limits, or it has no row)"
                )
            }
            LayoutError::Width => f.write_str("the width is over 65,535"),
            LayoutError::Listing => f.write_str("the listing is longer than its area"),
        }
    }
}

impl Error for LayoutError {}

// 9, then 6: what a layout refuses before it lays out a row.
#[tactic(auto, using(crate::proofs::Answers::admits))]
pub fn check_given(document: &Document<'_>, width: usize) -> Result<(), LayoutError>
    ensures { result ≡ admission document.now.rows.now document.now.count document.now.text.now document.now.total width }
{
    if !document.counts_ok() {
        return Err(LayoutError::Document { row: 0 });
    }
    if let Some(row) = document.fault() {
        return Err(LayoutError::Document { row });
    }
    if 65535 < width {
        return Err(LayoutError::Width);
    }
    Ok(())
}

// What is answered once the last row is laid out: 22, or what is reported of the listing.
pub fn report(
    last: Cursor,
    count: usize,
    total: usize,
    listing: &[u8],
) -> Result<Counts, LayoutError>
    ensures { result ≡ reported last count total listing.now }
{
    let length = last.position;
    if listing.len() < length {
        return Err(LayoutError::Listing);
    }
    Ok(Counts {
        rows: count,
        text: total,
        length,
        lines: last.lines,
        longest: last.longest,
        tests: last.tests,
    })
}

// Lays out a document that was accepted before, without checking it again.
pub fn layout_accepted(
    document: &AcceptedDocument<'_>,
    width: usize,
    listing: &mut [u8],
) -> Result<Counts, LayoutError>
    requires { width ≤ 65535 }
    ensures { let d = document.now in Lists listing result (listed d.count d.total width (doc_of d.rows.now d.count d.text.now)) }
{
    let rows = document.rows;
    let text = document.text;
    let mut listing = Listing::new(listing, width);
    lay_out(document.count - 1, rows, text, 0, false, 0, &mut listing);
    let Listing { area, cursor, .. } = listing;
    report(cursor, document.count, document.total, area)
}

// Lays out a given document.
pub fn layout(
    document: &Document<'_>,
    width: usize,
    listing: &mut [u8],
) -> Result<Counts, LayoutError>
    ensures { Lists listing result (outcome document.now.rows.now document.now.count document.now.text.now document.now.total width) }
{
    check_given(document, width)?;
    let accepted = AcceptedDocument {
        rows: document.rows,
        count: document.count,
        text: document.text,
        total: document.total,
    };
    layout_accepted(&accepted, width, listing)
}
