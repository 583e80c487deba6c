// Types by value that several crates share. What they mean is in specs/.
#![tactic(auto)]

pub mod answers;
pub mod events;
pub mod names;
pub mod scan;
