// The layout as a loop: the top entry is taken until none is left. No function calls itself. Both layouts are C functions.
ghost use Rattle.std.specs.Prelude.{◌≡◌, ◌+◌, ◌*◌, ◌≤◌, ◌<◌, length};
ghost use Rattle.layout_pending.specs.Contract.{TestRoom, Lends};
ghost use Rattle.layout_pending.specs.Frames.{Asks, LaysOutWhole};

use crate::entries::{Entry, entry_at, put};
use document::kinds::RowKind;
use document::measures::{kind_in, word_in};
use layout::cursor::Cursor;
use layout::listing::Listing;
use layout::rows::{lay_break, lay_text};

// Whether a group is flat: inside a flat one it is, and is not tested.
#[tactic(auto, using(layout::proofs::Painting::painted))]
fn is_flat(rows: &[u32], e: Entry, listing: &mut Listing<'_>) -> bool
    requires { TestRoom rows.now e listing.old.cursor }
    ensures { Asks rows.now e listing.old listing.new result }
{
    e.flat || listing.fits(word_in(rows, e.row, 4), e.next)
}

// Lays out the rows of an accepted document, from the start of the listing.
pub fn lay_out_pending(
    rows: &[u32],
    count: usize,
    text: &[u8],
    width: usize,
    pending: &mut [u32],
    listing: &mut [u8],
) -> Cursor
    requires { Lends rows.now count text.now width pending.old }
    ensures { LaysOutWhole rows count text width listing result }
{
    let mut listing = Listing::new(listing, width);
    put(pending, 0, Entry::whole(count));
    let mut depth: usize = 1;
    while 0 < depth {
        let top = depth - 1;
        let e = entry_at(pending, top);
        match kind_in(rows, e.row) {
            Some(RowKind::Text) => {
                lay_text(e.row, rows, text, &mut listing);
                depth = top;
            }
            Some(RowKind::Join) => {
                put(pending, top, e.last_child(e.nest, e.flat));
                put(pending, depth, e.left_child(rows));
                depth += 1;
            }
            Some(RowKind::Break) => {
                lay_break(e.row, rows, e.nest, e.flat, &mut listing);
                depth = top;
            }
            Some(RowKind::Nest) => put(
                pending,
                top,
                e.last_child(e.nest + word_in(rows, e.row, 1), e.flat),
            ),
            // A group: each row of an accepted document has a kind.
            _ => {
                let flat = is_flat(rows, e, &mut listing);
                put(pending, top, e.last_child(e.nest, flat));
            }
        }
    }
    listing.cursor
}
