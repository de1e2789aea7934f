// The numbers in one slot of a table: of a column its type code, flags, maximum and child id; of a schema the slot of its first column, its
// count of columns and its child id. Each stands at a place, with those before it below.

// The place of a column's flags.
pub const FLAGS: u64 = 256;

// The place of a column's maximum.
pub const MAXIMUM: u64 = 65_536;

// The place of a schema's count of columns.
pub const COUNT: u64 = 65_536;

// The place of the child id, in either of them.
pub const ID: u64 = 4_294_967_296;
