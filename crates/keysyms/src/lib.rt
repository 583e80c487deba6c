// The Latin-1 names of keysyms: a sorted constant table, the search for a name in it, and the name that is written.
// `table` is made from the list of names, by tools/name_table; the rest is written by hand.
#![tactic(auto)]

pub mod first;
pub mod search;
mod table;
