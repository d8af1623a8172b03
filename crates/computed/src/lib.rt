// Recorded prints of the published Rust, edited as document 02 asks, computed by the definitions.
#![tactic(auto)]
