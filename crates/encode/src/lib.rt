// Writers of original rows and of update data.
// They know columns and not schema files; whoever has a schema file gives them the schema's columns.
#![tactic(auto)]

mod entry;
mod map;
mod row;
pub mod writers;
