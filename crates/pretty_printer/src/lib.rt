// Expressions to documents.
#![tactic(auto, using(crate::proofs::Printing::printing))]

pub mod exprs;
