// The numbers that a schema file is made of: a file written from them, and those of a file listed.
#![tactic(auto)]

pub mod listing;
pub mod writer;
