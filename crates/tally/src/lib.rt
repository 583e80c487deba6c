// Which productions a merge keeps, and how many there are: equality, and the counts that its limits go by.
#![tactic(auto)]

pub mod compare;
pub mod count;
pub mod kept;
