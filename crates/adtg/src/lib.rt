// The calls of the library that take a schema file together with rows or plans.
// Each checks all that it is given, in the common order of checks: all sizes, the schema file, the schema number, the rest.
#![tactic(auto)]

ghost use Rattle.std.specs.Prelude.{◌≡◌};
ghost use Rattle.wire.specs.declared.error.Input.TheVariants as input;
ghost use Rattle.wire.specs.Read.{about, sized, told};
ghost use Rattle.adtg.specs.InSchema.{both, listed, told_columns, SlotsBeside};

use column::columns::Columns;
use questions::file::{columns_of, slots_of};
use wire::check_size;
use wire::error::{Error, Input};

pub mod plans;
pub mod rows;
pub mod updates;
pub mod writers;

// The size of the file, then what was found of the other inputs' sizes: the first error.
#[tactic(auto, unfolding(wire::specs::Read::sized))]
fn check_sizes(file: &[u8], sizes: Result<(), Error>) -> Result<(), Error>
    ensures { told result ≡ both (about input.Schema (sized file.now)) (told sizes) }
{
    check_size(file.len(), Input::Schema).and(sizes)
}

// The columns of schema `number`: the file's size, then what was found of the other inputs' sizes, then the file.
#[tactic(auto, unfolding(wire::specs::Read::sized), using(crate::proofs::Laws::listed_large, crate::proofs::Laws::listed_sized, crate::proofs::Laws::laid_listed))]
fn columns_beside(file: &[u8], number: usize, sizes: Result<(), Error>) -> Result<Columns, Error>
    ensures { told_columns result ≡ listed file.now (told sizes) number }
{
    check_sizes(file, sizes)?;
    columns_of(file, number)
}

// The columns of schema `number`, beside one other input, whose errors have this name.
#[tactic(auto, unfolding(wire::specs::Read::sized))]
fn columns_for(file: &[u8], number: usize, other: &[u8], name: Input) -> Result<Columns, Error>
    ensures { told_columns result ≡ listed file.now (about name (sized other.now)) number }
{
    columns_beside(file, number, check_size(other.len(), name))
}

// The columns of schema `number` into slots, checked in the same order.
#[tactic(auto, unfolding(wire::specs::Read::sized), using(crate::proofs::Laws::listed_large, crate::proofs::Laws::listed_sized))]
fn slots_beside(
    file: &[u8],
    number: usize,
    sizes: Result<(), Error>,
    slots: &mut [u32; 64],
) -> Result<usize, Error>
    ensures { SlotsBeside file.now (told sizes) number slots.new result }
{
    check_sizes(file, sizes)?;
    slots_of(file, number, slots)
}

// The columns of schema `number` into slots, beside one other input, whose errors have this name.
// Kept: by value and in slots the columns come of two calls of crate `questions`; a closure for the call is no plainer.
#[tactic(auto, unfolding(wire::specs::Read::sized))]
fn slots_for(
    file: &[u8],
    number: usize,
    other: &[u8],
    name: Input,
    slots: &mut [u32; 64],
) -> Result<usize, Error>
    ensures { SlotsBeside file.now (about name (sized other.now)) number slots.new result }
{
    slots_beside(file, number, check_size(other.len(), name), slots)
}
