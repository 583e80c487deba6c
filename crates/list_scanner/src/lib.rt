// Reading an event's modifier list by position, against the definitions of the crate model.
#![tactic(auto)]

pub mod lists;
pub mod modifiers;
