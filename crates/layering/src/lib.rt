// Layers or a ring: which heads depend on which atoms.
#![tactic(auto)]

pub mod answer;
pub mod numbers;
pub mod operation;
pub mod ring;
