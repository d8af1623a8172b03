// Equality of strings, names, levels and lists of levels, and of all fields of two rows but their parts.
#![tactic(auto)]

pub mod levels;
pub mod lists;
pub mod names;
pub mod seen;
pub mod trees;
