// The lines of a listing, made one behind the other in an array of the caller's. None has more than 84 bytes: four numbers of 20 digits
// with a byte behind each.
ghost use Rattle.std.specs.Prelude.{◌+◌, ◌*◌, ◌/◌, ◌≤◌, length};
ghost use Rattle.wire.specs.Errors.{code_of};
ghost use Rattle.listing.specs.Lines.{Adds, AddsNumber, AddsThe, CountLine, RowLine, RowLines, RefusalLine, refusal_words, rows_of};

use itoa::Buffer;
use wire::bytes::copy_into;
use wire::error::{Error, Input};

const SPACE: u8 = b' ';

const NEWLINE: u8 = b'\n';

// Adds words to a text that has `at` bytes. How many it then has.
// Kept: a text and its length, here and below, since memory is fixed: the text grows in an array of the caller's.
fn add_words(text: &mut [u8], at: usize, words: &[u8]) -> usize
    requires { at + length words.now ≤ length text.old }
    ensures { Adds text.old text.new at words.now result }
{
    copy_into(text, at, words);
    at + words.len()
}

// Adds a number in decimal, and a byte behind it.
#[tactic(auto, using(crate::proofs::Laws::number_added))]
fn add_number(text: &mut [u8], at: usize, n: usize, byte: u8) -> usize
    requires { at + 21 ≤ length text.old }
    ensures { AddsNumber text.old text.new at n byte result × (result ≤ at + 21) }
{
    let mut buffer = Buffer::new();
    let digits = buffer.format(n).as_bytes();
    let end = at + digits.len();
    copy_into(text, at, digits);
    copy_into(text, end, &[byte]);
    end + 1
}

// The first line: how many rows follow.
pub(crate) fn add_count(text: &mut [u8], n: usize) -> usize
    requires { 84 ≤ length text.old }
    ensures { AddsThe (CountLine n) 84 text.old text.new 0 result }
{
    let at = add_words(text, 0, b"rows ");
    add_number(text, at, n, NEWLINE)
}

// Adds the line of one row.
fn add_row(text: &mut [u8], at: usize, kind: u32, id: u32, original: u32, update: u32) -> usize
    requires { at + 84 ≤ length text.old }
    ensures { AddsThe (RowLine kind id original update) 84 text.old text.new at result }
{
    let second = add_number(text, at, kind as usize, SPACE);
    let third = add_number(text, second, id as usize, SPACE);
    let fourth = add_number(text, third, original as usize, SPACE);
    add_number(text, fourth, update as usize, NEWLINE)
}

// Adds the lines of rows, each four numbers.
pub(crate) fn add_rows(text: &mut [u8], at: usize, rows: &[u32]) -> usize
    requires { at + 84 * (length rows.now / 4) ≤ length text.old }
    ensures { AddsThe (RowLines (rows_of (length rows.now / 4) rows.now)) (84 * (length rows.now / 4)) text.old text.new at result }
{
    let mut end = at;
    for i in 0..rows.len() / 4 {
        let k = 4 * i;
        end = add_row(text, end, rows[k], rows[k + 1], rows[k + 2], rows[k + 3]);
    }
    end
}

// A refusal with this number at this place, behind the words that name what is refused.
fn add_refusal(text: &mut [u8], words: &[u8], code: usize, place: usize) -> usize
    requires { (length words.now ≤ 14) × (84 ≤ length text.old) }
    ensures { AddsThe (RefusalLine words.now code place) 84 text.old text.new 0 result }
{
    let number = add_words(text, 0, words);
    let word = add_number(text, number, code, SPACE);
    let end = add_words(text, word, b"at ");
    add_number(text, end, place, NEWLINE)
}

// The one line of an error: of the sheet where it is about the schema file, else of the rows.
pub(crate) fn add_error(text: &mut [u8], e: Error) -> usize
    requires { 84 ≤ length text.old }
    ensures { AddsThe (RefusalLine (refusal_words e.input) (code_of e.kind) e.offset) 84 text.old text.new 0 result }
{
    let code = e.kind.code() as usize;
    if e.input == Input::Schema {
        return add_refusal(text, b"sheet refused ", code, e.offset);
    }
    add_refusal(text, b"rows refused ", code, e.offset)
}
