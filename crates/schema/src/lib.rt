// Schema files (document 01's column sheets): the reader, and the table that it fills. What is asked of that table is in crate `questions`,
// the writer in crate `numbers`.
#![tactic(auto)]

pub mod children;
pub mod columns;
pub mod flat;
pub mod reader;
pub mod runs;
pub mod slot;

// The most columns of a file, and so the most schemas: a table has as many slots for each.
pub const MOST_FILE_COLUMNS: usize = 256;

// The greatest depth of a file, with the top schema at depth 1.
pub const MOST_DEPTH: usize = 4;
