// The entries of the pending area, a stack: three words each, for the row, nest × 2 + flat, and the distance from the row's end to the next
// break. C lends the area, so it is one of words.
ghost use Rattle.std.specs.Prelude.{◌≡◌, ◌+◌, ◌*◌, ◌≤◌, ◌<◌, length};
ghost use Rattle.basics.specs.Lent.{was, left};
ghost use Rattle.layout_pending.specs.Contract.{entry_at, put_at, whole_entry, left_child, last_child};

use basics::numbers::low;
use document::measures::left_of;
use layout::rows::next_of_left;

// A row that is still to be laid out: the nest it stands in, whether it is inside a flat group, and the distance from its end to the next
// break (or to the end).
#[derive(Clone, Copy)]
pub struct Entry {
    pub row: usize,
    pub nest: usize,
    pub flat: bool,
    pub next: usize,
}

impl Entry {
    // The whole document, which is its last row.
    pub fn whole(count: usize) -> Entry
        requires { 0 < count }
        ensures { result ≡ whole_entry count }
    {
        Entry {
            row: count - 1,
            nest: 0,
            flat: false,
            next: 0,
        }
    }

    // The left child of a join.
    pub fn left_child(self, rows: &[u32]) -> Entry
        requires { ((0 < self.row) × (self.row * 7 ≤ length rows.now)) × (self.next < 4611686018427387904) }
        ensures { result ≡ left_child rows.now self }
    {
        Entry {
            row: left_of(rows, self.row),
            next: next_of_left(rows, self.row, self.next),
            ..self
        }
    }

    // The row before it: the right child of a join, the child of a nest or a group.
    pub fn last_child(self, nest: usize, flat: bool) -> Entry
        requires { 0 < self.row }
        ensures { result ≡ last_child self nest flat }
    {
        Entry {
            row: self.row - 1,
            nest,
            flat,
            ..self
        }
    }
}

// Puts an entry at a place of the stack.
pub fn put(pending: &mut [u32], at: usize, e: Entry)
    requires { (at * 3 + 3 ≤ length pending.old) × (e.nest < 4294967296) }
    ensures { left pending ≡ put_at (was pending) at e }
{
    let at = at * 3;
    pending[at] = low(e.row);
    pending[at + 1] = low(e.nest * 2 + usize::from(e.flat));
    pending[at + 2] = low(e.next);
}

// The entry at a place of the stack.
pub fn entry_at(pending: &[u32], at: usize) -> Entry
    requires { at * 3 + 3 ≤ length pending.now }
    ensures { result ≡ entry_at pending.now at }
{
    let at = at * 3;
    let nest = pending[at + 1];
    Entry {
        row: pending[at] as usize,
        nest: nest as usize / 2,
        flat: nest % 2 == 1,
        next: pending[at + 2] as usize,
    }
}
