// Formulas in prefix order: their value in an interpretation, and whether nodes are exactly one formula.
#![tactic(auto)]

pub mod formula;
