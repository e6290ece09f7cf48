// Planes: 64 settings a word. A plane has a word for each atom, and lane j of a word is the setting j behind the first;
// an atom's two words say in which lanes it is true, and in which it is false.
#![tactic(auto)]

pub mod fill;
pub mod lane;
pub mod opening;
pub mod plane;
pub mod word;
