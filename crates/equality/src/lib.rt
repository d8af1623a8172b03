// Equality of trees after lifting: a sweep over the rows for each level of binders.
#![tactic(auto)]

pub mod puts;
pub mod sweep;
