// The recursive layout over a document's postorder rows, a form that document 01 names: the row number falls from parent to child.
ghost use Rattle.std.specs.Prelude.{◌≡◌, ◌+◌, ◌*◌, ◌<◌, ◌≤◌, length};
ghost use Rattle.document.specs.Rows.{word};
ghost use Rattle.layout.specs.Layout.{textᵖ, placed};
ghost use Rattle.layout.specs.Contract.{TextRoom, BreakRoom, Room, next_of_left, text_of};
ghost use Rattle.layout.specs.Frames.{Emits, LaysOut};

use crate::listing::Listing;
use document::kinds::RowKind;
use document::measures::{kind_in, left_of, through, word_in};

// The distance from the end of the left child of the join at row r to the next break, where it is `next` at the join's end.
pub fn next_of_left(rows: &[u32], r: usize, next: usize) -> usize
    requires { ((0 < r) × (r * 7 ≤ length rows.now)) × (next < 4611686018427387904) }
    ensures { (result ≡ next_of_left rows.now r next) × (result < next + 4294967296) }
{
    let right = r - 1;
    through(word_in(rows, right, 6), word_in(rows, right, 5), next)
}

pub fn lay_text(r: usize, rows: &[u32], text: &[u8], listing: &mut Listing<'_>)
    requires { TextRoom rows.now text.now r listing.old.width listing.old.cursor }
    ensures { Emits listing.old listing.new (textᵖ (text_of rows.now text.now r)) }
{
    let from = word_in(rows, r, 1);
    let to = from + word_in(rows, r, 2);
    listing.text(&text[from..to]);
}

pub fn lay_break(r: usize, rows: &[u32], nest: usize, flat: bool, listing: &mut Listing<'_>)
    requires { BreakRoom rows.now r listing.old.width nest listing.old.cursor }
    ensures { Emits listing.old listing.new (placed flat (word rows.now r 1) nest) }
{
    if flat {
        listing.blank(word_in(rows, r, 1));
    } else {
        listing.newline(nest);
    }
}

// Lays out the subtree of row r0. The last child of a row is the next turn of the loop, and only a left child is a call: a call for each
// child would take twice the machine's stack.
pub fn lay_out(
    r0: usize,
    rows: &[u32],
    text: &[u8],
    nest0: usize,
    flat0: bool,
    next: usize,
    listing: &mut Listing<'_>,
)
    requires { Room rows.now text.now r0 listing.old.width nest0 next listing.old.cursor }
    ensures { LaysOut rows.now text.now r0 nest0 flat0 next listing.old listing.new }
{
    let mut r = r0;
    let mut nest = nest0;
    let mut flat = flat0;
    'row: loop {
        match kind_in(rows, r) {
            Some(RowKind::Text) => return lay_text(r, rows, text, listing),
            Some(RowKind::Join) => {
                let left = left_of(rows, r);
                let past = next_of_left(rows, r, next);
                lay_out(left, rows, text, nest, flat, past, listing);
            }
            Some(RowKind::Break) => return lay_break(r, rows, nest, flat, listing),
            Some(RowKind::Nest) => nest += word_in(rows, r, 1),
            // A group: each row of an accepted document has a kind.
            _ => flat = flat || listing.fits(word_in(rows, r, 4), next),
        }
        r -= 1;
    }
}
