// Declarations to documents, and the document of a root.
#![tactic(auto)]

pub mod declars;
pub mod listing;
