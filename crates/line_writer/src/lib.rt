// The two sides of a line, each in one walk that writes its entries into a table as they are read.
#![tactic(auto)]

pub mod calls;
pub mod events;
