// Levels, sorts and level lists to documents.
#![tactic(auto)]

pub mod levels;
