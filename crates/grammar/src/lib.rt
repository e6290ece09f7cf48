// The forms of a case file's lines.
#![tactic(auto)]

pub mod brings;
pub mod line;
pub mod literal;
pub mod numeral;
