// Texts, numbers and the names of keysyms put into lent bytes.
#![tactic(auto)]

pub mod bytes;
pub mod key_names;
pub mod numbers;
