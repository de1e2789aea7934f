// Update data over the columns of one schema, and the current value of a changed row. The original row is asked of crate `row`.
#![tactic(auto)]

pub mod current;
pub mod data;
pub mod updates;
