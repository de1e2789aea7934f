// Original rows over the columns of one schema: presence, the walk, look-up, the end of a row, the number of fields, the bytes of a field. It
// knows columns and not schema files; whoever has a schema file asks it with the schema's columns.
#![tactic(auto)]

pub mod marks;
pub mod parts;
pub mod rows;
