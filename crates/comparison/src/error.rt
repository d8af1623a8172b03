// Why the comparison is refused.
ghost use Rattle.std.specs.Prelude.{◌≡◌};
ghost use Rattle.comparison.specs.declared.error.CompareError.TheVariants.{Pool};

use pool_check::PoolError;
use std::error::Error;
use std::fmt;

#[derive(Clone, Copy, Debug, PartialEq, Eq)]
pub enum CompareError {
    // 1 to 4 and 31: what check finds.
    Pool { error: PoolError },
    // 5: one of the rows is missing.
    Root,
}

impl From<PoolError> for CompareError {
    ghost from_gives = { λ e r. r ≡ Pool e };

    fn from(error: PoolError) -> CompareError {
        CompareError::Pool { error }
    }
}

impl fmt::Display for CompareError {
    fn fmt<W: fmt::Write>(&self, f: &mut fmt::Formatter<W>) -> fmt::Result {
        match self {
            CompareError::Pool { error } => write!(f, "{error}"),
            CompareError::Root => f.write_str("the pool has no such row"),
        }
    }
}

impl Error for CompareError {}
