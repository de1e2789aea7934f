// One column of many rows: where its field stands in a section, for each row of one table, through a plan.
#![tactic(auto)]

pub mod find;
pub mod page;
mod search;
