// The rules of expression rows in check.
#![tactic(auto)]

pub mod exprs;
mod kinds;
