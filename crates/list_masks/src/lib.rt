// What a modifier list asks, and the masks that an event keeps of it.
#![tactic(auto)]

pub mod lists;
