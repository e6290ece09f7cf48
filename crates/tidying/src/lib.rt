// Tidying: from a file's bytes to the text of its case, written back.
#![tactic(auto)]

pub mod operation;
