// What settling in lanes prepares once a case: the first round with nothing added, for each atom the heads that it
// touches, and the rules of each head as a chain.
#![tactic(auto)]

pub mod chain;
pub mod dependent;
pub mod opening;
pub mod tables;
