// Numbers as a text writes them.
#![tactic(auto)]

pub mod number;
