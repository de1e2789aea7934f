// Row writers, with the schema file and the schema number that say the columns.
ghost use Rattle.std.specs.Prelude.{◌≡◌, length};
ghost use Rattle.encode.specs.Writers.{WroteAt};
ghost use Rattle.adtg.specs.Writers.{write_original_in, write_update_in};

use crate::columns_for;
use wire::error::{Error, Input};

// Writes an original row into `out` from `place` on, one entry a column.
#[tactic(auto, using(crate::proofs::Laws::original_listed))]
pub fn write_original(
    file: &[u8],
    number: usize,
    entries: &[u32],
    values: &[u8],
    out: &mut [u8],
    place: usize,
) -> Result<usize, Error>
    ensures { WroteAt (write_original_in file.now number entries.now values.now (length out.old) place) place out.old out.new result }
{
    let columns = columns_for(file, number, values, Input::Values)?;
    encode::writers::write_original(columns, entries, values, out, place)
}

// Writes update data into `out` from `place` on, one entry a column.
// Kept: the two writers are calls of their own, as the C interface names them; a closure for one line is no plainer.
#[tactic(auto, using(crate::proofs::Laws::rewritten_listed))]
pub fn write_update(
    file: &[u8],
    number: usize,
    entries: &[u32],
    values: &[u8],
    out: &mut [u8],
    place: usize,
) -> Result<usize, Error>
    ensures { WroteAt (write_update_in file.now number entries.now values.now (length out.old) place) place out.old out.new result }
{
    let columns = columns_for(file, number, values, Input::Values)?;
    encode::writers::write_update(columns, entries, values, out, place)
}
