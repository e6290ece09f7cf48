// Case files as bytes: lines, and the words and brackets of a line.
#![tactic(auto)]

pub mod bytes;
pub mod lines;
pub mod name;
pub mod number;
pub mod tokens;
