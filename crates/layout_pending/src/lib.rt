// The layout of a given document without deep calls: the rows that are still to be laid out stand in a lent area (numbers 9, 6, 30, 22).
#![tactic(auto)]

ghost use Rattle.std.specs.Prelude.{◌≡◌, ◌*◌, ◌≤◌, length};
ghost use Rattle.basics.specs.Lent.{was};
ghost use Rattle.layout.specs.Call.{doc_of, listed};
ghost use Rattle.layout_pending.specs.declared.PendingError.TheVariants as errors;
ghost use Rattle.layout_pending.specs.Call.{outcome_pending};
ghost use Rattle.layout_pending.specs.Frames.{ListsPending, ListsCleared};

use document::accepted::AcceptedDocument;
use document::check::Document;
use layout::{Counts, LayoutError, check_given, report};
use std::error::Error;
use std::fmt;
use turns::lay_out_pending;

pub mod entries;
pub mod turns;

// Why this layout is refused: for what the first one is, or for a pending area shorter than three words for each row (30).
#[derive(Clone, Copy, Debug, PartialEq, Eq)]
pub enum PendingError {
    Layout { error: LayoutError },
    PendingArea,
}

impl From<LayoutError> for PendingError {
    ghost from_gives = { λ error given. given ≡ errors.Layout error };

    fn from(error: LayoutError) -> PendingError {
        PendingError::Layout { error }
    }
}

impl fmt::Display for PendingError {
    fn fmt<W: fmt::Write>(&self, f: &mut fmt::Formatter<W>) -> fmt::Result {
        match self {
            PendingError::Layout { error } => write!(f, "{error}"),
            PendingError::PendingArea => {
                f.write_str("the pending area is shorter than three words for each document row")
            }
        }
    }
}

impl Error for PendingError {}

// Lays out a document that was accepted before, and clears the pending area.
fn layout_accepted(
    document: &AcceptedDocument<'_>,
    width: usize,
    pending: &mut [u32],
    listing: &mut [u8],
) -> Result<Counts, LayoutError>
    requires { (width ≤ 65535) × (document.now.count * 3 ≤ length pending.old) }
    ensures { let d = document.now in
        ListsCleared pending listing result (listed d.count d.total width (doc_of d.rows.now d.count d.text.now)) }
{
    let last = lay_out_pending(
        document.rows,
        document.count,
        document.text,
        width,
        pending,
        listing,
    );
    pending.fill(0);
    report(last, document.count, document.total, listing)
}

// Lays out a given document.
pub fn layout_pending(
    document: &Document<'_>,
    width: usize,
    pending: &mut [u32],
    listing: &mut [u8],
) -> Result<Counts, PendingError>
    ensures { let d = document.now in ListsPending pending listing result (outcome_pending d.rows.now d.count d.text.now d.total width) }
{
    check_given(document, width)?;
    if pending.len() < document.count * 3 {
        return Err(PendingError::PendingArea);
    }
    let accepted = AcceptedDocument {
        rows: document.rows,
        count: document.count,
        text: document.text,
        total: document.total,
    };
    Ok(layout_accepted(&accepted, width, pending, listing)?)
}
