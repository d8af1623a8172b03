// What a layout answers, as eight numbers: number and place, and the six counts.
use layout::{Counts, LayoutError};
use layout_pending::PendingError;
use std::io;

pub type Numbers = [usize; 8];

fn listed(counts: Counts) -> Numbers {
    [
        0,
        0,
        counts.rows,
        counts.text,
        counts.length,
        counts.lines,
        counts.longest,
        counts.tests,
    ]
}

fn refused(error: LayoutError) -> Numbers {
    match error {
        LayoutError::Document { row } => [9, row, 0, 0, 0, 0, 0, 0],
        LayoutError::Width => [6, 0, 0, 0, 0, 0, 0, 0],
        LayoutError::Listing => [22, 0, 0, 0, 0, 0, 0, 0],
    }
}

pub fn numbers(answer: Result<Counts, LayoutError>) -> Numbers {
    match answer {
        Ok(counts) => listed(counts),
        Err(error) => refused(error),
    }
}

// The same of the second layout.
pub fn numbers_pending(answer: Result<Counts, PendingError>) -> Numbers {
    match answer {
        Ok(counts) => listed(counts),
        Err(PendingError::Layout { error }) => refused(error),
        Err(PendingError::PendingArea) => [30, 0, 0, 0, 0, 0, 0, 0],
    }
}

pub fn show(rt: &impl Print, a: &[usize]) -> io::Result<()> {
    for n in a {
        print!(rt; " {n}")?;
    }
    Ok(())
}
