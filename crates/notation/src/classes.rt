// Rows in classes: rows with equal trees are of one class, which goes by the lowest of them. Rows are found by a hash, in chains, so
// that a row is compared with those of its chain alone.
ghost use Rattle.std.specs.Prelude.{◌≡◌, ◌+◌, ◌<◌, ◌≤◌, length, replicate};
ghost use Rattle.pool.specs.Tree.{same_shape};
ghost use Rattle.pool.specs.Views.{read};
ghost use Rattle.notation.specs.Classes.{NamesRight, Lower, Classed, Chains, ClassTable, Hashed, HashesAlike, lowest};
ghost use Rattle.notation.specs.Repeats.{Repeats};

use crate::compared::Compared;
use pool::pool::Pool;

pub(crate) trait Classes {
    ghost table: { ClassTable };

    fn rows(pool: &Pool<'_>) -> usize
        ensures { result ≡ table.count (read pool.now) };

    // A number that rows with equal trees share.
    fn hash(pool: &Pool<'_>, known: &[u32], classes: &[u32], r: usize) -> usize
        requires { Lower table (read pool.now) known.now classes.now r }
        ensures { result ≡ table.hash (read pool.now) r };

    // Whether the tree of row r is that of the lower row c. What of the byte area was compared is not compared again.
    fn same(
        pool: &Pool<'_>,
        known: &[u32],
        classes: &[u32],
        compared: &mut Compared,
        r: usize,
        c: usize,
    ) -> bool
        requires lower { Lower table (read pool.now) known.now classes.now r }
        requires below { c < r }
        requires compared { Repeats (read pool.now).bytes compared.old }
        ensures compared { Repeats (read pool.now).bytes compared.new }
        ensures same { result ≡ same_shape (table.tree (read pool.now) c) (table.tree (read pool.now) r) };
}

// Whether the tree of row r is that of the lower row c, which is looked at where their hashes are equal.
fn alike<C: Classes>(
    pool: &Pool<'_>,
    known: &[u32],
    classes: &[u32],
    hashes: &[u32],
    compared: &mut Compared,
    r: usize,
    c: usize,
) -> bool
    requires law { HashesAlike C.table }
    requires lower { Lower C.table (read pool.now) known.now classes.now r }
    requires below { c < r }
    requires kept { r < length hashes.now }
    requires hashed { Hashed C.table (read pool.now) hashes.now (r + 1) }
    requires compared { Repeats (read pool.now).bytes compared.old }
    ensures compared { Repeats (read pool.now).bytes compared.new }
    ensures same { result ≡ same_shape (C.table.tree (read pool.now) c) (C.table.tree (read pool.now) r) }
{
    if hashes[c] != hashes[r] {
        return false;
    }
    C::same(pool, known, classes, compared, r, c)
}

// The class of row r, which is compared with the rows of its chain.
fn find<C: Classes>(
    pool: &Pool<'_>,
    known: &[u32],
    classes: &[u32],
    heads: &[u32],
    below: &[u32],
    hashes: &[u32],
    compared: &mut Compared,
    r: usize,
) -> usize
    requires law { HashesAlike C.table }
    requires lower { Lower C.table (read pool.now) known.now classes.now r }
    requires chains { Chains C.table (read pool.now) (length heads.now) heads.now below.now r }
    requires room { r ≤ length below.now }
    requires some { 0 < length heads.now }
    requires kept { r < length hashes.now }
    requires hashed { Hashed C.table (read pool.now) hashes.now (r + 1) }
    requires compared { Repeats (read pool.now).bytes compared.old }
    ensures compared { Repeats (read pool.now).bytes compared.new }
    ensures class { result ≡ lowest (C.table.tree (read pool.now)) r }
{
    let mut at = heads[hashes[r] as usize % heads.len()] as usize;
    // No `for`: a chain is followed.
    while at > 0 {
        let row = at - 1;
        if alike::<C>(pool, known, classes, hashes, compared, r, row) {
            return classes[row] as usize;
        }
        at = below[row] as usize;
    }
    r
}

// The classes of all rows. `heads` has one more than the last row of each chain, and 0 for none, as it is at first; `below` gets the same of
// the row before each in its chain, and `hashes` the hash of each.
fn classify_by<C: Classes>(
    pool: &Pool<'_>,
    known: &[u32],
    heads: &mut [u32],
    below: &mut [u32],
    hashes: &mut [u32],
    classes: &mut [u32],
)
    requires law { HashesAlike C.table }
    requires right { NamesRight (read pool.now) }
    requires known { C.table.Known (read pool.now) known.now }
    requires few { C.table.count (read pool.now) ≤ 65536 }
    requires heads { C.table.count (read pool.now) ≤ length heads.old }
    requires below { C.table.count (read pool.now) ≤ length below.old }
    requires hashes { C.table.count (read pool.now) ≤ length hashes.old }
    requires classes { C.table.count (read pool.now) ≤ length classes.old }
    requires empty { heads.old ≡ replicate (length heads.old) 0 }
    ensures { Classed (C.table.tree (read pool.now)) classes.new (C.table.count (read pool.now)) }
{
    let pool = *pool;
    let mut compared = Compared::nothing();
    for r in 0..C::rows(&pool) {
        let hash = C::hash(&pool, known, classes, r) % 4294967296;
        hashes[r] = hash as u32;
        let class = find::<C>(
            &pool,
            known,
            classes,
            heads,
            below,
            hashes,
            &mut compared,
            r,
        );
        let chain = hash % heads.len();
        below[r] = heads[chain];
        heads[chain] = (r + 1) as u32;
        classes[r] = class as u32;
    }
}

// The same, with SIZE chains.
pub(crate) fn classify<C: Classes, const SIZE: usize>(
    pool: &Pool<'_>,
    known: &[u32],
    classes: &mut [u32],
)
    requires law { HashesAlike C.table }
    requires right { NamesRight (read pool.now) }
    requires known { C.table.Known (read pool.now) known.now }
    requires rows { C.table.count (read pool.now) ≤ SIZE }
    requires small { SIZE ≤ 65536 }
    requires classes { C.table.count (read pool.now) ≤ length classes.old }
    ensures { Classed (C.table.tree (read pool.now)) classes.new (C.table.count (read pool.now)) }
{
    let mut heads = [0u32; SIZE];
    classify_by::<C>(
        pool,
        known,
        &mut heads,
        &mut [0u32; SIZE],
        &mut [0u32; SIZE],
        classes,
    );
}
