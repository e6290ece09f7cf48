// The verdict over the minimal explanations, found setting by setting.
#![tactic(auto)]

pub mod counts;
pub mod query;
pub mod verdict;
pub mod visit;
