// Storing what a line says, by atom numbers.
#![tactic(auto)]

pub mod atom;
pub mod form;
pub mod formula_nodes;
pub mod lent;
pub mod masks;
pub mod price;
