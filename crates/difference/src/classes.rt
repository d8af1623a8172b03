// Rows that were found equal: a row has m + 1 where its tree is that of a lower row m, and 0 where none is known.
// A class goes by its lowest row.
ghost use Rattle.difference.specs.Walks.{KeepsWhere, Root, Finds, Classed};

use links::{owe, row_at};

// The row that the entries lead to from x: each leads to a lower one.
fn root_of(kept: &[u32], x: usize) -> usize
    ensures { Root kept.now x result }
{
    let mut r = x;
    while let Some(m) = row_at(kept, r) {
        if r <= m {
            return r;
        }
        r = m;
    }
    r
}

// Henceforth x leads to the lower row m, if there is room.
fn keep(kept: &mut [u32], x: usize, m: usize)
    ensures { KeepsWhere kept.old kept.new x m }
{
    if x < kept.len() && m < x && m < 65536 {
        owe(kept, x, m);
    }
}

// The same row, and x leads there at once from now on.
fn find(kept: &mut [u32], x: usize) -> usize
    ensures { Finds kept.old kept.new x result }
{
    let r = root_of(kept, x);
    keep(kept, x, r);
    r
}

pub(crate) fn same_class(kept: &mut [u32], x: usize, y: usize) -> bool
    ensures { Classed kept.old kept.new x y result }
{
    let a = find(kept, x);
    let b = find(kept, y);
    a == b
}

// The classes of x and y are one.
pub(crate) fn unite(kept: &mut [u32], x: usize, y: usize)
    ensures { KeepsWhere kept.old kept.new x y }
{
    let a = find(kept, x);
    let b = find(kept, y);
    keep(kept, a.max(b), a.min(b));
}
