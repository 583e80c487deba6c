// Reading the events of a line by position, against the definitions of the crate model.
#![tactic(auto)]

pub mod events;
pub mod keys;
pub mod left;
pub mod types;
