// The layer report: from a file's bytes to the text of its layers, or of a ring.
#![tactic(auto)]

pub mod lines;
pub mod operation;
