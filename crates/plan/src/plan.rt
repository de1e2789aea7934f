// A plan of the columns of one schema, by value.

// What a plan holds, as numbers: for column i number i, with the column, its gap, its bit, the stops before it and its width in one; for
// the j-th stop number 64 + j, with all that going over it needs; then the count of columns with the number of the first stop, the bytes of
// the presence map, and the bits of the nullable chapters. All others are 0.
#[repr(C)]
#[derive(Clone, Copy)]
pub struct Plan {
    pub numbers: [usize; 131],
}
