// How far a sink has come.

// What stopped a walk: 7, at the row of the chain's start or the let; 8, 20 and 21, with the rows written so far.
#[derive(Clone, Copy, Debug, PartialEq, Eq)]
pub enum Stop {
    Names { row: usize },
    Document { rows: usize },
    RowArea { rows: usize },
    TextArea { rows: usize },
}

// The rows and text bytes written so far, and what stopped the walk.
#[derive(Clone, Copy, Debug, PartialEq, Eq, Default)]
pub struct Written {
    pub rows: usize,
    pub text: usize,
    pub stop: Option<Stop>,
}
