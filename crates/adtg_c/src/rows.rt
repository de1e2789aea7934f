// Rows, with the schema file that says their columns: look-ups, ends, the number of fields, the current value, the writers.
ghost use Rattle.std.specs.Prelude.{◌≡◌, length};
ghost use Rattle.wire.specs.Output.{size_of};
ghost use Rattle.encode.specs.Writers.{output_with};
ghost use Rattle.adtg.specs.Rows.{look_up_in, field_count_in, row_end_in};
ghost use Rattle.adtg.specs.Updates.{look_update_in, update_end_in, current_in};
ghost use Rattle.adtg.specs.Writers.{write_original_in, write_update_in};
ghost use Rattle.answers.specs.Answers.{Answered, size_values};
ghost use Rattle.answers.specs.RowAnswers.{look_up_values, update_values, current_values};

use adtg::rows::{field_count, look_up, row_end};
use adtg::updates::{current, look_update, update_end};
use adtg::writers::{write_original, write_update};
use answers::answer::answer_size;
use answers::rows::{answer_current, answer_look_up, answer_update};

// What a row has at a column.
#[unsafe(no_mangle)]
pub extern "C" fn adtg_look_up(
    file: &[u8],
    number: usize,
    row: &[u8],
    column: usize,
    out: &mut [u64; 16],
) -> u32
    ensures { Answered look_up_values (look_up_in file.now number row.now column) result out.new }
{
    answer_look_up(look_up(file, number, row, column), out)
}

// The number of fields of a row.
#[unsafe(no_mangle)]
pub extern "C" fn adtg_field_count(
    file: &[u8],
    number: usize,
    row: &[u8],
    out: &mut [u64; 16],
) -> u32
    ensures { Answered size_values (field_count_in file.now number row.now) result out.new }
{
    answer_size(field_count(file, number, row), out)
}

// Where the row at `at` ends.
#[unsafe(no_mangle)]
pub extern "C" fn adtg_row_end(
    file: &[u8],
    number: usize,
    row: &[u8],
    at: usize,
    out: &mut [u64; 16],
) -> u32
    ensures { Answered size_values (row_end_in file.now number row.now at) result out.new }
{
    answer_size(row_end(file, number, row, at), out)
}

// What update data say of a column.
#[unsafe(no_mangle)]
pub extern "C" fn adtg_look_update(
    file: &[u8],
    number: usize,
    update: &[u8],
    column: usize,
    out: &mut [u64; 16],
) -> u32
    ensures { Answered update_values (look_update_in file.now number update.now column) result out.new }
{
    answer_update(look_update(file, number, update, column), out)
}

// Where the update data at `at` end.
// Kept: an exported name, with a definition of its own.
#[unsafe(no_mangle)]
pub extern "C" fn adtg_update_end(
    file: &[u8],
    number: usize,
    update: &[u8],
    at: usize,
    out: &mut [u64; 16],
) -> u32
    ensures { Answered size_values (update_end_in file.now number update.now at) result out.new }
{
    answer_size(update_end(file, number, update, at), out)
}

// The current value of a column of a changed row.
#[unsafe(no_mangle)]
pub extern "C" fn adtg_current(
    file: &[u8],
    number: usize,
    row: &[u8],
    update: &[u8],
    column: usize,
    out: &mut [u64; 16],
) -> u32
    ensures { Answered current_values (current_in file.now number row.now update.now column) result out.new }
{
    answer_current(current(file, number, row, update, column), out)
}

// Writes an original row into `dst` from `place` on: bytes written.
#[unsafe(no_mangle)]
pub extern "C" fn adtg_write_original(
    file: &[u8],
    number: usize,
    entries: &[u32],
    values: &[u8],
    place: usize,
    dst: &mut [u8],
    out: &mut [u64; 16],
) -> u32
    ensures answers { Answered size_values (size_of (write_original_in file.now number entries.now values.now (length dst.old) place)) result out.new }
    ensures leaves { dst.new ≡ output_with (write_original_in file.now number entries.now values.now (length dst.old) place) place dst.old }
{
    answer_size(
        write_original(file, number, entries, values, dst, place),
        out,
    )
}

// Writes update data into `dst` from `place` on: bytes written.
// Kept: an exported name, with a definition of its own.
#[unsafe(no_mangle)]
pub extern "C" fn adtg_write_update(
    file: &[u8],
    number: usize,
    entries: &[u32],
    values: &[u8],
    place: usize,
    dst: &mut [u8],
    out: &mut [u64; 16],
) -> u32
    ensures answers { Answered size_values (size_of (write_update_in file.now number entries.now values.now (length dst.old) place)) result out.new }
    ensures leaves { dst.new ≡ output_with (write_update_in file.now number entries.now values.now (length dst.old) place) place dst.old }
{
    answer_size(write_update(file, number, entries, values, dst, place), out)
}
