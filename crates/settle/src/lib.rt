// Settling: the step, its rounds until nothing changes, what every operation on a case asks first, and the operation
// that settles one setting of a case.
#![tactic(auto)]

pub mod check;
pub mod operation;
pub mod settle;
pub mod step;
