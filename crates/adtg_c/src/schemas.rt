// The schema file: how much it has, its schemas and columns.
ghost use Rattle.std.specs.Prelude.{length, ◌≡◌, Ok};
ghost use Rattle.wire.specs.Read.{ok};
ghost use Rattle.wire.specs.Output.{size_of, output_after};
ghost use Rattle.numbers.specs.Writer.{file_written, numbers_listed};
ghost use Rattle.questions.specs.Questions.{counts_of, told_column, column_count_of, column_of, child_of};
ghost use Rattle.answers.specs.Answers.{Answered, size_values};
ghost use Rattle.adtg_c.specs.FileAnswers.{counts_values, column_values};

use answers::answer::{answer, answer_size, tell};
use numbers::listing::list_numbers;
use numbers::writer::write_file;
use questions::file::{ColumnInfo, Counts, child_schema, column_at, column_count, count_file};

// The numbers of a schema file.
fn counts_numbers(counts: Counts) -> [u64; 16]
    ensures { Answered counts_values (ok counts) 0 result }
{
    tell(&[counts.schemas, counts.columns])
}

// How many schemas and columns a schema file has.
#[unsafe(no_mangle)]
pub extern "C" fn adtg_read_schema(file: &[u8], out: &mut [u64; 16]) -> u32
    ensures { Answered counts_values (counts_of file.now) result out.new }
{
    answer(count_file(file).map(counts_numbers), out)
}

// How many columns schema `number` of a file has.
#[unsafe(no_mangle)]
pub extern "C" fn adtg_schema_columns(file: &[u8], number: usize, out: &mut [u64; 16]) -> u32
    ensures { Answered size_values (column_count_of file.now number) result out.new }
{
    answer_size(column_count(file, number), out)
}

// The number of the schema with a child id.
#[unsafe(no_mangle)]
pub extern "C" fn adtg_schema_of_child(file: &[u8], id: u32, out: &mut [u64; 16]) -> u32
    ensures { Answered size_values (child_of file.now id) result out.new }
{
    answer_size(child_schema(file, id), out)
}

// The numbers of a column.
fn column_numbers(c: ColumnInfo) -> [u64; 16]
    ensures { Answered column_values (told_column (Ok c)) 0 result }
{
    tell(&[c.code, c.flags, c.maximum, c.id, c.nested])
}

// Column `column` of schema `number`: type code, flags, maximum, child id, number of a chapter's schema.
#[unsafe(no_mangle)]
pub extern "C" fn adtg_schema_column(
    file: &[u8],
    number: usize,
    column: usize,
    out: &mut [u64; 16],
) -> u32
    ensures { Answered column_values (column_of file.now number column) result out.new }
{
    answer(column_at(file, number, column).map(column_numbers), out)
}

// Writes a schema file with these numbers at the start of `dst`: bytes written.
#[unsafe(no_mangle)]
pub extern "C" fn adtg_write_schema(numbers: &[u32], dst: &mut [u8], out: &mut [u64; 16]) -> u32
    ensures answers { Answered size_values (size_of (file_written numbers.now (length dst.old))) result out.new }
    ensures leaves { dst.new ≡ output_after (file_written numbers.now (length dst.old)) dst.old }
{
    answer_size(write_file(numbers, dst), out)
}

// Lists the numbers of a schema file at the start of `table`: how many.
#[unsafe(no_mangle)]
pub extern "C" fn adtg_schema_numbers(file: &[u8], table: &mut [u32], out: &mut [u64; 16]) -> u32
    ensures answers { Answered size_values (size_of (numbers_listed file.now (length table.old))) result out.new }
    ensures leaves { table.new ≡ output_after (numbers_listed file.now (length table.old)) table.old }
{
    answer_size(list_numbers(file, table), out)
}
