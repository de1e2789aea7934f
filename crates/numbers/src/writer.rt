// The writer of a schema file from its numbers. What the reader would refuse of their bytes is refused as the reader would.
ghost use Rattle.std.specs.Prelude.{◌≡◌, length};
ghost use Rattle.wire.specs.Read.{refused};
ghost use Rattle.wire.specs.Output.{put, Wrote};
ghost use Rattle.numbers.specs.Writer.{coded_number, of_numbers, Coded, file_written};

use schema::reader::read_file;
use wire::bytes::{copy_into, lacks};
use wire::error::{Error, ErrorKind, Input};

// The most numbers that a list may have: four bytes a number are within the limit of an input.
pub const NUMBERS: usize = 4_194_304;

// The first numbers that two groups, and that three groups, cannot say.
const OVER_TWO: u32 = 16_384;

const OVER_THREE: u32 = 2_097_152;

// Writes a number in its shortest form into `out` from `at` on, where it fits: how many bytes the form has.
// Of a number over three groups it writes three bytes that are no number.
#[tactic(auto, using(crate::proofs::Coding::coded_one, crate::proofs::Coding::coded_two, crate::proofs::Coding::coded_three, crate::proofs::Coding::coded_none))]
fn put_number(out: &mut [u8], at: usize, n: u32) -> usize
    ensures { (result ≡ length (coded_number n)) × (out.new ≡ put out.old at (coded_number n)) }
{
    if n < 128 {
        copy_into(out, at, &[n as u8]);
        return 1;
    }
    if n < OVER_TWO {
        copy_into(out, at, &[(n % 128 + 128) as u8, (n / 128) as u8]);
        return 2;
    }
    if n < OVER_THREE {
        let three = [
            (n % 128 + 128) as u8,
            (n / 128 % 128 + 128) as u8,
            (n / 16_384) as u8,
        ];
        copy_into(out, at, &three);
        return 3;
    }
    copy_into(out, at, &[128, 128, 128]);
    3
}

// Writes number after number into `buffer`, as long as it has room for three bytes: how many bytes they have.
fn code_numbers(numbers: &[u32], buffer: &mut [u8]) -> usize
    ensures { Coded numbers.now buffer.new result }
{
    let mut at = 0;
    for n in numbers {
        if lacks(buffer.len(), at, 3) {
            return at;
        }
        at += put_number(buffer, at, *n);
    }
    at
}

// An error of the reader with the numbers' bytes, as an error of the numbers.
#[tactic(auto, unfolding(crate::specs::Writer::in_range, wire::specs::Read::about))]
fn of_numbers(e: Error) -> Error
    ensures { refused result ≡ of_numbers (refused e) }
{
    if e.kind == ErrorKind::NumberForm {
        return Error::at(ErrorKind::Range, e.offset).about(Input::Numbers);
    }
    e.about(Input::Numbers)
}

// Writes a schema file with these numbers at the start of `out`.
pub fn write_file(numbers: &[u32], out: &mut [u8]) -> Result<usize, Error>
    ensures { Wrote (file_written numbers.now (length out.old)) out.old out.new result }
{
    if NUMBERS < numbers.len() {
        return Err(Error::at_start(ErrorKind::TooLarge, Input::Numbers));
    }
    let mut buffer = [0u8; 4096];
    let size = code_numbers(numbers, &mut buffer);
    let bytes = &buffer[..size];
    let mut table = [0u64; 512];
    if let Err(e) = read_file(bytes, &mut table) {
        return Err(of_numbers(e));
    }
    if out.len() < size {
        return Err(Error::at(ErrorKind::Capacity, size).about(Input::Output));
    }
    copy_into(out, 0, bytes);
    Ok(size)
}
