// 01's starred specimens, proved of the definitions.
#![tactic(auto)]
