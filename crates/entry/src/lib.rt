// What schema files are made of, read at an offset: numbers, and the numbers of one column up to a nested schema.
#![tactic(auto)]

pub mod head;
pub mod number;
pub mod usual;

// The greatest flags of a column: 1 for nullable.
pub const MOST_FLAGS: usize = 1;

// The greatest maximum length of a column.
pub const MOST_MAXIMUM: usize = 32_767;
