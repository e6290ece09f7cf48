// Case files that follow from a seed, a number of atoms and a number of clauses.
#![tactic(auto)]

pub mod clause;
pub mod draws;
pub mod lines;
pub mod operation;
