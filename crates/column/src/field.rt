// One field of a present column at a position of a row: where it starts and ends, and how many prefixes it has.
ghost use Rattle.std.specs.Prelude.{◌≡◌};
ghost use Rattle.wire.specs.Read.{told};
ghost use Rattle.wire.specs.Integers.{read_int};
ghost use Rattle.column.specs.Columns.{prefix_size};
ghost use Rattle.column.specs.Fields.{bytes_at, variable_at, field_at};

use crate::column::Column;
use wire::bytes::lacks;
use wire::error::{Error, Input};
use wire::integer::{u8_at, u32_at};

// A field: its two ends, and the number of length prefixes read for it, 0 or 1. The ends stand apart: side by side, the compiler loads both at
// once from an answer that was just stored piece by piece, and a look-up waits for that.
#[derive(Clone, Copy)]
pub struct Field {
    pub start: usize,
    pub prefixes: usize,
    pub end: usize,
}

// The length in front of a field of variable length.
#[tactic(auto, using(crate::proofs::Laws::prefix_else))]
pub fn length_at(column: Column, row: &[u8], at: usize) -> Result<usize, Error>
    ensures { told result ≡ read_int row.now at (prefix_size column) }
{
    if column.prefix_size() == 1 {
        u8_at(row, at)
    } else {
        u32_at(row, at)
    }
}

// The field of `width` bytes at `at`, after so many prefixes.
#[tactic(auto, using(crate::proofs::Laws::bytes_short, crate::proofs::Laws::bytes_fit))]
fn bytes_at(row: &[u8], at: usize, width: usize, prefixes: usize) -> Result<Field, Error>
    ensures { told result ≡ bytes_at row.now at width prefixes }
{
    if lacks(row.len(), at, width) {
        return Err(Error::short(row.len()));
    }
    Ok(Field {
        start: at,
        end: at + width,
        prefixes,
    })
}

// The field of variable length whose prefix stands at `at`.
#[tactic(auto, using(crate::proofs::Laws::variable_refused, crate::proofs::Laws::variable_long, crate::proofs::Laws::variable_bytes, crate::proofs::Laws::int_inside, crate::proofs::Laws::code_positive))]
pub fn variable_at(column: Column, row: &[u8], at: usize) -> Result<Field, Error>
    ensures { told result ≡ variable_at column row.now at }
{
    let length = length_at(column, row, at)?;
    match column.length_error(length) {
        Err(kind) => Err(Error::at(kind, at)),
        Ok(()) => bytes_at(row, at + column.prefix_size(), length, 1),
    }
}

// The field of a present column at `at`.
#[tactic(auto, using(crate::proofs::Laws::field_variable, crate::proofs::Laws::field_fixed))]
pub fn field_at(column: Column, row: &[u8], at: usize) -> Result<Field, Error>
    ensures { told result ≡ field_at column row.now at }
{
    if column.is_variable() {
        variable_at(column, row, at)
    } else {
        bytes_at(row, at, column.width(), 0)
    }
}
