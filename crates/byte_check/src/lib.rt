// What reads bytes in check: the strings, and the naturals among them.
#![tactic(auto)]

pub mod naturals;
pub mod strings;
pub mod table;
