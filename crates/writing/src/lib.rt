// Writing a case back as a file.
#![tactic(auto)]

pub mod body;
pub mod formula;
pub mod line;
pub mod lines;
pub mod operation;
pub mod writable;
