// The table of names, its groups, what its names stand for, and the places of those that are written.
// `table` and `rows` are made from the lists of names, by tools/name_table; the rest is written by hand.
#![tactic(auto)]

pub mod groups;
pub mod meanings;
pub mod places;
mod rows;
pub mod table;
