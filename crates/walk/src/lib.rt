// The walk over all settings, 64 at a time.
#![tactic(auto)]

pub mod walk;
