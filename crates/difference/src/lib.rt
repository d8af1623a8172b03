// The first pair of rows in which two trees differ, from the back: a row before its children, these last field first.
#![tactic(auto)]

mod classes;
pub mod trees;
pub mod walk;
