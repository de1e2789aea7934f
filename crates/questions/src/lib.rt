// What is asked of a schema file: how much it has, its schemas and their columns. Rows, plans and sections ask here for columns.
#![tactic(auto)]

pub mod file;
