// The check of a given document: its counts, then the row rules, rows rising, then the whole-document rule (number 9).
ghost use Rattle.std.specs.Prelude.{◌≡◌, ◌+◌, ◌*◌, ◌<◌, ◌≤◌, ◌&&◌, eqb, length};
ghost use Rattle.document.specs.Rows.{word, fields_ok, derived, rule_ok, own_text, fault, found, counts_ok};

use crate::kinds::RowKind;
use crate::measures::{Measures, joined, kind_in, measures_in, word_in, wrapped};

// A given document: its areas, and how many rows and text bytes it is said to have.
#[derive(Clone, Copy)]
pub struct Document<'a> {
    pub rows: &'a [u32],
    pub count: usize,
    pub text: &'a [u8],
    pub total: usize,
}

impl Document<'_> {
    // Whether the counts are within the slices and the limits, and there is a row.
    pub fn counts_ok(&self) -> bool
        ensures { result ≡ counts_ok (length self.now.rows.now) self.now.count (length self.now.text.now) self.now.total }
    {
        0 < self.count
            && self.count <= 16384
            && self.count * 7 <= self.rows.len()
            && self.total <= self.text.len()
            && self.total <= 65536
    }

    // The rule of the kind and the two fields of row r, with `before` text bytes before it.
    fn fields_ok(&self, before: usize, r: usize) -> bool
        requires { (before ≤ 70368744177664) × (r * 7 + 7 ≤ length self.now.rows.now) }
        ensures { result ≡ fields_ok self.now.rows.now self.now.total before r (word self.now.rows.now r 0) }
    {
        let a = word_in(self.rows, r, 1);
        let b = word_in(self.rows, r, 2);
        match kind_in(self.rows, r) {
            Some(RowKind::Text) => a == before && before + b <= self.total,
            Some(RowKind::Join) => {
                word_in(self.rows, r.saturating_sub(1), 3) < r && a == 0 && b == 0
            }
            Some(RowKind::Break) => a < 2 && b == 0,
            Some(RowKind::Nest) => 0 < r && a < 65 && b == 0,
            Some(RowKind::Group) => 0 < r && a == 0 && b == 0,
            None => false,
        }
    }

    // Whether row r keeps the row rules, with `before` text bytes before it.
    fn row_ok(&self, before: usize, r: usize) -> bool
        requires { (before ≤ 70368744177664) × (r * 7 + 7 ≤ length self.now.rows.now) }
        ensures { result ≡ rule_ok self.now.rows.now self.now.total before r (word self.now.rows.now r 0) }
    {
        self.fields_ok(before, r) && measures_in(self.rows, r) == derived_at(self.rows, r)
    }

    // Whether the subtree of row r is the whole document, with `before` text bytes before its end.
    fn is_whole(&self, r: usize, before: usize) -> bool
        requires { r * 7 + 7 ≤ length self.now.rows.now }
        ensures { result ≡ eqb (word self.now.rows.now r 3) self.now.count && eqb before self.now.total }
    {
        word_in(self.rows, r, 3) == self.count && before == self.total
    }

    // The first faulty row.
    #[tactic(auto, using(crate::proofs::Faults::faults))]
    pub fn fault(&self) -> Option<usize>
        requires { (self.now.count ≤ 16384) × (self.now.count * 7 ≤ length self.now.rows.now) }
        ensures { result ≡ found (fault self.now.rows.now self.now.total self.now.count) self.now.count }
    {
        let mut before: usize = 0;
        for i in 0..self.count {
            if !self.row_ok(before, i) {
                return Some(i);
            }
            before += own_text(self.rows, i);
        }
        let last = self.count.checked_sub(1)?;
        if self.is_whole(last, before) {
            None
        } else {
            Some(last)
        }
    }
}

// The measures that row r must have.
fn derived_at(rows: &[u32], r: usize) -> Measures
    requires { r * 7 + 7 ≤ length rows.now }
    ensures { result ≡ derived rows.now r (word rows.now r 0) }
{
    let right = r.saturating_sub(1);
    match kind_in(rows, r) {
        Some(RowKind::Text) => {
            let size = word_in(rows, r, 2);
            Measures {
                count: 1,
                flat: size,
                first: size,
                has: 0,
            }
        }
        Some(RowKind::Join) => {
            let last = measures_in(rows, right);
            joined(measures_in(rows, right.saturating_sub(last.count)), last)
        }
        Some(RowKind::Break) => Measures {
            count: 1,
            flat: word_in(rows, r, 1),
            first: 0,
            has: 1,
        },
        _ => wrapped(measures_in(rows, right)),
    }
}

// The text bytes of row r itself.
fn own_text(rows: &[u32], r: usize) -> usize
    requires { r * 7 + 7 ≤ length rows.now }
    ensures { (result ≡ own_text rows.now r (word rows.now r 0)) × (result < 4294967296) }
{
    match kind_in(rows, r) {
        Some(RowKind::Text) => word_in(rows, r, 2),
        _ => 0,
    }
}
