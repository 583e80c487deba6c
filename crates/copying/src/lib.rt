// The productions of a merge copied into a cleared table: whatever the new table's directive keeps of either, marked by its text.
#![tactic(auto)]

pub mod copy;
