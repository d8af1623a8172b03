// The pieces that every document is made of: fixed words, digits, parentheses, tiles, constant pieces of chains and lets.
#![tactic(auto)]

pub mod digits;
pub mod parens;
pub mod puts;
pub mod words;
