// Notation: the operators that the names of a pool have.
#![tactic(auto)]

mod classes;
mod compared;
mod hashes;
mod names;
pub mod operators;
mod runs;
mod strings;
