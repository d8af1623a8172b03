// Why a call is refused: a number of documents 01 and 02, and its place.
ghost use Rattle.std.specs.Prelude.{◌≡◌, ℕ, Err};
ghost use Rattle.pool_check.specs.Check as check;
ghost use Rattle.layout.specs.Call as call;
ghost use Rattle.layout_pending.specs.Call as pending;
ghost use Rattle.lister.specs.Answers as prints;
ghost use Rattle.comparison.specs.Call as comparisons;

use comparison::CompareError;
use layout::LayoutError;
use layout_pending::PendingError;
use lister::PrintError;
use pool_check::PoolError;

pub trait Refusal {
    ghost number_of: { Self → ℕ };

    ghost place_of: { Self → ℕ };

    fn number(&self) -> u32
        ensures { result ≡ number_of self.now };

    fn place(&self) -> usize
        ensures { result ≡ place_of self.now };
}

#[tactic(auto, unfolding(pool_check::specs::Check::number, pool_check::specs::Check::place))]
impl Refusal for PoolError {
    ghost number_of = { λ e. check.number (Err e) };

    ghost place_of = { λ e. check.place (Err e) };

    fn number(&self) -> u32 {
        match self {
            PoolError::Words => 1,
            PoolError::Limit => 2,
            PoolError::Strings { .. } => 3,
            PoolError::Rows { .. } => 4,
            PoolError::Notation => 31,
        }
    }

    fn place(&self) -> usize {
        match self {
            PoolError::Strings { row } => *row,
            PoolError::Rows { row } => *row,
            _ => 0,
        }
    }
}

impl Refusal for LayoutError {
    ghost number_of = { λ e. call.number (Err e) };

    ghost place_of = { λ e. call.place (Err e) };

    fn number(&self) -> u32 {
        match self {
            LayoutError::Document { .. } => 9,
            LayoutError::Width => 6,
            LayoutError::Listing => 22,
        }
    }

    fn place(&self) -> usize {
        match self {
            LayoutError::Document { row } => *row,
            _ => 0,
        }
    }
}

impl Refusal for PendingError {
    ghost number_of = { λ e. pending.number (Err e) };

    ghost place_of = { λ e. pending.place (Err e) };

    fn number(&self) -> u32 {
        match self {
            PendingError::Layout { error } => error.number(),
            PendingError::PendingArea => 30,
        }
    }

    fn place(&self) -> usize {
        match self {
            PendingError::Layout { error } => error.place(),
            PendingError::PendingArea => 0,
        }
    }
}

#[tactic(auto, unfolding(lister::specs::Answers::number, lister::specs::Answers::place))]
impl Refusal for PrintError {
    ghost number_of = { λ e. prints.number (Err e) };

    ghost place_of = { λ e. prints.place (Err e) };

    fn number(&self) -> u32 {
        match self {
            PrintError::Pool { error } => error.number(),
            PrintError::Root => 5,
            PrintError::Size => 6,
            PrintError::Names { .. } => 7,
            PrintError::Document { .. } => 8,
            PrintError::RowArea { .. } => 20,
            PrintError::TextArea { .. } => 21,
            PrintError::Listing => 22,
        }
    }

    fn place(&self) -> usize {
        match self {
            PrintError::Pool { error } => error.place(),
            PrintError::Names { row } => *row,
            PrintError::Document { rows } => *rows,
            PrintError::RowArea { rows } => *rows,
            PrintError::TextArea { rows } => *rows,
            _ => 0,
        }
    }
}

#[tactic(auto, unfolding(comparison::specs::Call::number, comparison::specs::Call::place))]
impl Refusal for CompareError {
    ghost number_of = { λ e. comparisons.number (Err e) };

    ghost place_of = { λ e. comparisons.place (Err e) };

    fn number(&self) -> u32 {
        match self {
            CompareError::Pool { error } => error.number(),
            CompareError::Root => 5,
        }
    }

    fn place(&self) -> usize {
        match self {
            CompareError::Pool { error } => error.place(),
            CompareError::Root => 0,
        }
    }
}
