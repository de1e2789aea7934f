// The calls that C and Rust link. Each takes its inputs in the call's order and then sixteen numbers, and answers 0 or
// the error's code; the numbers hold the values, or the error's offset and input, and then zeros.
// The header file include/adtg.h declares them.
#![tactic(auto)]

pub mod batches;
pub mod head;
pub mod pages;
pub mod plans;
pub mod readers;
pub mod rows;
pub mod schemas;
pub mod sections;
pub mod version;
