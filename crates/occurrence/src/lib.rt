// Whether a variable occurs in the tree of a row: by few steps, or by one sweep over the rows.
#![tactic(auto)]

pub mod occurs;
pub mod parts;
pub mod sweep;
