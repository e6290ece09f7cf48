// Taking a line that passes its checks.
#![tactic(auto)]

pub mod look;
pub mod progress;
pub mod take;
