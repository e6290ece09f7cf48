// What explains the readings, and which explanations are minimal, 64 settings at a time.
#![tactic(auto)]

pub mod cover;
pub mod explain;
pub mod weights;
