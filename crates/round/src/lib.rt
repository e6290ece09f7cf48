// One round in each of 64 lanes: the first, and those after it.
#![tactic(auto)]

pub mod begin;
pub mod redo;
