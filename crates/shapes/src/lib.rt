// What is kept of a file's schemas for going over rows quickly, in one list of numbers: for each schema its forms and its masks, then a word
// and a mask for each stop.
#![tactic(auto)]

pub mod forms;
mod masks;
pub mod shapes;
