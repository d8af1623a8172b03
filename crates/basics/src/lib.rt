// What every layer uses: numbers as words.
#![tactic(auto)]

pub mod numbers;
