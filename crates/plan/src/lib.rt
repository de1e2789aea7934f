// Column plans: what a plan holds of a schema's columns, made and compared, and the fixed places that it names.
#![tactic(auto)]

pub mod compare;
pub mod fixed;
pub mod make;
pub mod parts;
pub mod plan;
