// Why a print is refused.
ghost use Rattle.std.specs.Prelude.{◌≡◌};
ghost use Rattle.lister.specs.Answers.{of_pool, of_stop};

use document::written::Stop;
use pool_check::PoolError;
use std::error::Error;
use std::fmt;

#[derive(Clone, Copy, Debug, PartialEq, Eq)]
pub enum PrintError {
    // 1 to 4 and 31: what check finds.
    Pool { error: PoolError },
    // 5: no such root.
    Root,
    // 6: indent over 64 or width over 65,535.
    Size,
    // 7: a chain or let brings the stack over 1,024.
    Names { row: usize },
    // 8: a text byte or row past the document's limits.
    Document { rows: usize },
    // 20: row area full.
    RowArea { rows: usize },
    // 21: text area full.
    TextArea { rows: usize },
    // 22: listing longer than its area.
    Listing,
}

impl From<PoolError> for PrintError {
    ghost from_gives = { λ e r. r ≡ of_pool e };

    fn from(error: PoolError) -> PrintError {
        PrintError::Pool { error }
    }
}

impl From<Stop> for PrintError {
    ghost from_gives = { λ e r. r ≡ of_stop e };

    fn from(stop: Stop) -> PrintError {
        match stop {
            Stop::Names { row } => PrintError::Names { row },
            Stop::Document { rows } => PrintError::Document { rows },
            Stop::RowArea { rows } => PrintError::RowArea { rows },
            Stop::TextArea { rows } => PrintError::TextArea { rows },
        }
    }
}

impl fmt::Display for PrintError {
    fn fmt<W: fmt::Write>(&self, f: &mut fmt::Formatter<W>) -> fmt::Result {
        match self {
            PrintError::Pool { error } => write!(f, "{error}"),
            PrintError::Root => f.write_str("the pool has no such root"),
            PrintError::Size => f.write_str("the indent is over 64 or the width over 65,535"),
            PrintError::Names { row } => write!(f, "row {row} brings the stack over 1,024 names"),
            PrintError::Document { rows } => {
                write!(f, "past the limits of a document after {rows} rows")
            }
            PrintError::RowArea { rows } => write!(f, "the row area is full after {rows} rows"),
            PrintError::TextArea { rows } => write!(f, "the text area is full after {rows} rows"),
            PrintError::Listing => f.write_str("the listing is longer than its area"),
        }
    }
}

impl Error for PrintError {}
