// The third property (demand 3), of every run of the two prints, and when a print succeeds.
#![tactic(auto)]
