// Names, constants and literals to documents.
#![tactic(auto)]

pub mod components;
pub mod literals;
pub mod names;
