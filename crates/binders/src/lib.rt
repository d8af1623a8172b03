// What the printers of expressions are made of: the stack of names, variables, chains, runs and groups of binders.
#![tactic(auto)]

pub mod chain;
pub mod group;
pub mod leaves;
pub mod operators;
pub mod printer;
pub mod runs;
pub mod spine;
pub mod stack;
pub mod vars;
