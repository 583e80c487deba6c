// Reading the calls of a line by position, against the definitions of the crate model.
#![tactic(auto)]

pub mod calls;
pub mod right;
