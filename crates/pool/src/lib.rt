// The pool: its words in tables, their fields, and the trees that rows unfold to.
#![tactic(auto)]

pub mod checked;
pub mod fields;
pub mod kinds;
pub mod names;
pub mod pool;
pub mod tables;
pub mod words;
