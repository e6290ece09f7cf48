// What the sets of causes cost, and the cheapest of the minimal settings.
#![tactic(auto)]

pub mod cheapest;
pub mod price;
