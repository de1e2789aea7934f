// Columns: the types and their widths, one column, one field at a position of a row; a column in one number.
// Look-ups, the section reader and the writers all go through these. It knows nothing of maps, schemas or plans.
#![tactic(auto)]

pub mod column;
pub mod columns;
pub mod field;
pub mod packed;
pub mod types;
