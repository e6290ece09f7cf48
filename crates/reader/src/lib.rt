// Reading a case file into a record and five lent tables.
#![tactic(auto)]

pub mod read;
