// Cases: the record and its lent tables, soundness, causes and settings.
#![tactic(auto)]

pub mod case;
pub mod cause;
pub mod clause;
pub mod clauses;
pub mod sound;
pub mod tables;
