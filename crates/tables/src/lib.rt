// A table in lent bytes. docs/LAYOUT.md says where each word stands, and in code the module `places` alone does.
#![tactic(auto)]

pub mod places;
pub mod read;
pub mod write;

// The length of a table in bytes, the same for all content.
pub const TABLE_LENGTH: usize = 10000;
