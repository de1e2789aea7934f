// Answers as C and Rust see them: what an enum says, as a status and sixteen numbers or as a struct of numbers.
#![tactic(auto)]

pub mod answer;
pub mod plans;
pub mod rows;
