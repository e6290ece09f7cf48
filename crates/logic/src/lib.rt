// Three-valued logic: values and connectives, interpretations.
#![tactic(auto)]

pub mod interpretation;
pub mod value;
