// The call that compares two expression rows of a pool.
#![tactic(auto)]

ghost use Rattle.std.specs.Prelude.{◌≡◌};
ghost use Rattle.comparison.specs.Call.{comparison};

use difference::walk::Found;

mod error;

pub use error::CompareError;

// Two rows that differ.
#[derive(Clone, Copy, Debug, PartialEq, Eq)]
pub struct Pair {
    pub first: usize,
    pub second: usize,
}

// The first pair of rows whose kinds, or fields that are no expressions, differ: a row before its children, these last field first; none
// where the trees of the two rows are equal.
pub fn compare(
    bytes: &[u8],
    words: &[u32],
    first: usize,
    second: usize,
) -> Result<Option<Pair>, CompareError>
    ensures { result ≡ comparison bytes.now words.now first second }
{
    let pool = pool_check::check(bytes, words)?;
    let exprs = pool.words.tables.exprs;
    if exprs <= first || exprs <= second {
        return Err(CompareError::Root);
    }
    match difference::trees::compare(&pool, first, second, 0) {
        Found::Differ { first, second } => Ok(Some(Pair { first, second })),
        _ => Ok(None),
    }
}
