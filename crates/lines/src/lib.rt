// The answer to one line of a text, from what its two sides came to: refused with a number, or a production with its counts.
#![tactic(auto)]

pub mod left;
pub mod line;
pub mod totals;
