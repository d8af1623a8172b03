// The tables whose rows have a depth of at most 64, which those of lower rows tell: the names and the levels.
ghost use Rattle.std.specs.Prelude.{◌≡◌, ◌≤◌, length};
ghost use Rattle.pool.specs.Views.{read};
ghost use Rattle.byte_check.specs.Scan.{found};
ghost use Rattle.pool_check.specs.Depths.{DeepTable, DepthTold, row_ok, asked};

use pool::pool::Pool;

// The largest depth of a row.
const DEEPEST: usize = 64;

pub(crate) trait Deep {
    ghost table: { DeepTable };

    ghost law: { DepthTold table };

    fn rows(pool: &Pool<'_>) -> usize
        ensures { result ≡ table.count (read pool.now) };

    // The depth of row r, from those of lower rows; nothing where its fields are not right.
    fn ask(pool: &Pool<'_>, r: usize, depths: &[u8]) -> Option<usize>
        ensures { result ≡ asked table (read pool.now) depths.now r };
}

// The first row that breaks a rule. The depths of the rows before it go into `depths`.
fn scan<T: Deep>(pool: &Pool<'_>, depths: &mut [u8]) -> Option<usize>
    requires { T.table.count (read pool.now) ≤ length depths.old }
    ensures { result ≡ found (row_ok T.table (read pool.now)) (T.table.count (read pool.now)) }
{
    // A copy, which no write to `depths` can be thought to change.
    let pool = *pool;
    for r in 0..T::rows(&pool) {
        match T::ask(&pool, r, depths) {
            Some(depth) if depth <= DEEPEST => depths[r] = depth as u8,
            _ => return Some(r),
        }
    }
    None
}

// The same with a table of depths of SIZE bytes. Not inlined: the tables would stand in the frame of every check.
#[inline(never)]
fn scan_in<T: Deep, const SIZE: usize>(pool: &Pool<'_>) -> Option<usize>
    requires room { T.table.count (read pool.now) ≤ SIZE }
    requires small { SIZE ≤ 65536 }
    ensures { result ≡ found (row_ok T.table (read pool.now)) (T.table.count (read pool.now)) }
{
    scan::<T>(pool, &mut [0u8; SIZE])
}

// The same with a table that is no longer than need be, since all of it is cleared.
pub(crate) fn first_bad<T: Deep>(pool: &Pool<'_>) -> Option<usize>
    requires { T.table.count (read pool.now) ≤ 65536 }
    ensures { result ≡ found (row_ok T.table (read pool.now)) (T.table.count (read pool.now)) }
{
    match T::rows(pool) {
        0..=64 => scan_in::<T, 64>(pool),
        65..=4096 => scan_in::<T, 4096>(pool),
        _ => scan_in::<T, 65536>(pool),
    }
}
