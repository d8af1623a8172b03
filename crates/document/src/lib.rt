// Documents in rows of seven words: the sink that writes them (numbers 7, 8, 20, 21), and the check of given ones (number 9).
#![tactic(auto)]

pub mod accepted;
pub mod bytes;
pub mod check;
pub mod kinds;
pub mod measures;
pub mod sink;
pub mod written;
