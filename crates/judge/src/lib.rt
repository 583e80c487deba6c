// One event of a line, refused or kept, from what its names stand for.
#![tactic(auto)]

pub mod events;
pub mod spans;
