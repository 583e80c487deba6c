// Bytes, runs of bytes and lines of a text by position, against the definitions of the crate model.
#![tactic(auto)]

pub mod bytes;
pub mod lines;
