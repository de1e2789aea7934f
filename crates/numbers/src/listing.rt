// The numbers that a schema file is made of, listed into a caller's table.
ghost use Rattle.std.specs.Iterator.{YieldsFirst, item_count};
ghost use Rattle.std.specs.Prelude.{◌≡◌, [], ◌∷◌, length, MatchOption};
ghost use Rattle.numbers.specs.Listing.{numbers_left};
ghost use Rattle.numbers.specs.Writer.{CountIs, ListIs, Lists, numbers_listed};

use entry::number::{Number, number_at};
use schema::reader::read_file;
use wire::error::{Error, ErrorKind, Input, about};

// The number at `at`, and the offset behind it; none at the end, or where it is refused.
fn next_number(file: &[u8], at: usize) -> Option<(u32, usize)>
    ensures { MatchOption result (numbers_left file.now at ≡ []) (λ n. numbers_left file.now at ≡ n.0 ∷ numbers_left file.now n.1) }
{
    match number_at(file, at) {
        Ok(Number { value, end }) => Some((value as u32, end)),
        Err(_) => None,
    }
}

// The numbers of a file, one after the other, up to the first that is refused.
#[derive(Drop)]
struct Numbers<'a> {
    file: &'a [u8],
    at: usize,
}

impl<'a> Iterator for Numbers<'a> {
    type Item = u32;

    ghost next_gives = { YieldsFirst (λ s. numbers_left s.file.now s.at) };

    ghost remaining = { item_count (λ s. numbers_left s.file.now s.at) };

    fn next(&mut self) -> Option<u32> {
        let (number, end) = next_number(self.file, self.at)?;
        self.at = end;
        Some(number)
    }
}

// How many numbers a file has.
fn count_numbers(file: &[u8]) -> usize
    ensures { CountIs file.now result }
{
    Numbers { file, at: 0 }.count()
}

// Lists the numbers of a file in a table that has room for all.
fn fill_numbers(file: &[u8], table: &mut [u32])
    ensures { ListIs file.now table.old table.new }
{
    let mut numbers = Numbers { file, at: 0 };
    for slot in table.iter_mut() {
        match numbers.next() {
            Some(number) => {
                *slot = number;
            }
            None => {
                return;
            }
        }
    }
}

// Lists the numbers of a file at the start of a table.
pub fn list_numbers(file: &[u8], table: &mut [u32]) -> Result<usize, Error>
    ensures { Lists (numbers_listed file.now (length table.old)) table.old table.new result }
{
    let mut slots = [0u64; 512];
    let _ = about(read_file(file, &mut slots), Input::Schema)?;
    let n = count_numbers(file);
    if table.len() < n {
        return Err(Error::at(ErrorKind::Capacity, n).about(Input::Table));
    }
    fill_numbers(file, table);
    Ok(n)
}
