// Formulas in a line of a case file.
#![tactic(auto)]

pub mod formula;
pub mod keyword;
