// The report: from a file's bytes to the text that the program writes.
#![tactic(auto)]

pub mod operation;
pub mod show;
