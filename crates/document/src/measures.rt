// The words of rows, and the measures of a row's subtree: its last four words.
ghost use Rattle.std.specs.Prelude.{◌≡◌, ℕ, ◌+◌, ◌-◌, ◌*◌, ◌<◌, ◌≤◌, length};
ghost use Rattle.document.specs.Doc;
ghost use Rattle.document.specs.Rows.{word, left_of, measures_at, Small};
ghost use Rattle.document.specs.Codes.{Stands};

use crate::kinds::RowKind;

// Its last word, `has`, is 1 if there is a break and else 0: a number, as C has it in a document's row.
#[derive(Clone, Copy, Debug, PartialEq, Eq)]
pub struct Measures {
    pub count: usize,
    pub flat: usize,
    pub first: usize,
    pub has: usize,
}

// The word k of row r; 0 past the area, so that no caller has to know how long the area is.
pub fn word_at(rows: &[u32], r: usize, k: usize) -> usize
    requires { k < 7 }
    ensures { (result ≡ word rows.now r k) × (result < 4294967296) }
{
    if rows.len() <= r {
        return 0;
    }
    let i = r * 7 + k;
    rows.get(i).map_or(0, |w| *w as usize)
}

// The same of a row that lies in the area, without a test, for layout's speed. Each reader says so: a type of such rows would hold the area too.
pub fn word_in(rows: &[u32], r: usize, k: usize) -> usize
    requires { (k < 7) × (r * 7 + 7 ≤ length rows.now) }
    ensures { (result ≡ word rows.now r k) × (result < 4294967296) }
{
    rows[r * 7 + k] as usize
}

// The kind of row r, if its first word stands for one.
pub fn kind_at(rows: &[u32], r: usize) -> Option<RowKind>
    ensures { Stands (word rows.now r 0) result }
{
    RowKind::try_from(word_at(rows, r, 0)).ok()
}

// The same of a row that lies in the area, without a test.
pub fn kind_in(rows: &[u32], r: usize) -> Option<RowKind>
    requires { r * 7 + 7 ≤ length rows.now }
    ensures { Stands (word rows.now r 0) result }
{
    RowKind::try_from(word_in(rows, r, 0)).ok()
}

// The row of the left child of a join at row r, whose right one lies in the area.
pub fn left_of(rows: &[u32], r: usize) -> usize
    requires { (0 < r) × (r * 7 ≤ length rows.now) }
    ensures { result ≡ left_of rows.now r }
{
    let right = r - 1;
    right.saturating_sub(word_in(rows, right, 3))
}

// The measures of a row, whose words are read so.
fn measures_of<F: Fn(usize) -> usize>(word: F) -> Measures
    requires { (k : ℕ) → k < 7 → F.pre word k }
    ensures { F.post word 3 result.count × (F.post word 4 result.flat × (F.post word 5 result.first × F.post word 6 result.has)) }
{
    Measures {
        count: word(3),
        flat: word(4),
        first: word(5),
        has: word(6),
    }
}

// Of a row that lies in the area, without tests.
pub fn measures_in(rows: &[u32], r: usize) -> Measures
    requires { r * 7 + 7 ≤ length rows.now }
    ensures { (result ≡ measures_at rows.now r) × Small result }
{
    measures_of(|k| word_in(rows, r, k))
}

// Of any row: most lie in the area.
pub fn measures_at(rows: &[u32], r: usize) -> Measures
    ensures { (result ≡ measures_at rows.now r) × Small result }
{
    if r < rows.len() / 7 {
        measures_in(rows, r)
    } else {
        measures_of(|k| word_at(rows, r, k))
    }
}

// The distance to the first break from the start of a part, where it is `after` at the part's end.
pub fn through(has: usize, first: usize, after: usize) -> usize
    requires { first + after < 18446744073709551616 }
    ensures { (result ≡ Rattle.document.specs.Doc.through has first after) × (result ≤ first + after) }
{
    if has == 0 { first + after } else { first }
}

// The measures of a join, from its children's.
pub fn joined(a: Measures, b: Measures) -> Measures
    requires { Small a × Small b }
    ensures { result ≡ Rattle.document.specs.Rows.joined a b }
{
    let first = through(a.has, a.first, b.first);
    let has = if a.has == 0 { b.has } else { 1 };
    Measures {
        count: 1 + a.count + b.count,
        flat: a.flat + b.flat,
        first,
        has,
    }
}

// The measures of a nest or a group, from its child's.
pub fn wrapped(a: Measures) -> Measures
    requires { Small a }
    ensures { result ≡ Rattle.document.specs.Rows.wrapped a }
{
    Measures {
        count: 1 + a.count,
        ..a
    }
}
