// The handler options of a tablegram (adtgHandlerOptions): a token, a size, a GUID, the update type, three strings and
// the async option.
ghost use Rattle.std.specs.Prelude.{◌≡◌, ◌≤◌, length};
ghost use Rattle.wire.specs.declared.error.ErrorKind.TheVariants as kind;
ghost use Rattle.wire.specs.declared.error.Input.TheVariants as input;
ghost use Rattle.wire.specs.Read.{about, told};
ghost use Rattle.wire.specs.Output.{Wrote, put};
ghost use Rattle.options.specs.Options.{async_allowed, span_at, spans_of, async_rest, options_rest, options_sized, options_of, string_bytes, head_bytes, size_with, strings_size, options_size, options_written};

use wire::bytes::{copy_into, lacks, match_at};
use wire::error::{Error, ErrorKind, Input};
use wire::integer::{put_u16, u8_at, u16_at};
use wire::{LIMIT, check_size};

// The token that handler options start with.
pub const TOKEN: [u8; 1] = [0x02];

// The GUID of handler options.
pub const GUID: [u8; 16] = [
    0xB6, 0x92, 0xF2, 0x3F, 0x04, 0xB2, 0xCF, 0x11, 0x8D, 0x23, 0x00, 0xAA, 0x00, 0x5F, 0xFE, 0x58,
];

// The update type that is written.
pub const UPDATE: [u8; 1] = [0x01];

// A part of the input, by its two ends.
#[derive(Clone, Copy)]
pub struct Span {
    pub start: usize,
    pub end: usize,
}

// The three strings of handler options.
#[derive(Clone, Copy)]
pub struct Spans {
    pub first: Span,
    pub second: Span,
    pub third: Span,
}

// What handler options say, and where they end.
#[derive(Clone, Copy)]
pub struct Options {
    pub update: usize,
    pub strings: Spans,
    pub asynchronous: usize,
    pub end: usize,
}

// The error of a size that its options do not fill, or go past.
fn wrong_size() -> Error
    ensures { result ≡ record { kind = kind.OptionsSize; offset = 1; input = input.Single } }
{
    Error::at(ErrorKind::OptionsSize, 1)
}

// The string whose length stands at `at`, in options that end at `end`.
#[tactic(auto, unfolding(crate::specs::Options::span_at, wire::specs::Read::check))]
fn read_span(s: &[u8], at: usize, end: usize) -> Result<Span, Error>
    ensures { told result ≡ span_at s.now at end }
{
    if lacks(end, at, 2) {
        return Err(wrong_size());
    }
    let start = at + 2;
    let length = u16_at(s, at)?;
    if lacks(end, start, length) {
        return Err(wrong_size());
    }
    Ok(Span {
        start,
        end: start + length,
    })
}

// The three strings of options that end at `end`.
#[tactic(auto, unfolding(crate::specs::Options::spans_of))]
fn read_spans(s: &[u8], end: usize) -> Result<Spans, Error>
    ensures { told result ≡ spans_of s.now end }
{
    let first = read_span(s, 20, end)?;
    let second = read_span(s, first.end, end)?;
    let third = read_span(s, second.end, end)?;
    Ok(Spans {
        first,
        second,
        third,
    })
}

// What follows the GUID of options that end at `end`.
#[tactic(auto, unfolding(crate::specs::Options::options_rest), using(wire::proofs::Laws::byte_int))]
fn read_rest(s: &[u8], end: usize) -> Result<Options, Error>
    ensures { told result ≡ options_rest s.now end }
{
    let update = u8_at(s, 19)?;
    let strings = read_spans(s, end)?;
    read_async(s, end, update, strings)
}

// Whether an async option has one of its three values.
#[tactic(auto, unfolding(crate::specs::Options::async_allowed))]
fn is_async(n: usize) -> bool
    ensures { result ≡ async_allowed n }
{
    matches!(n, 1..=3)
}

// The async option, which is to be the last of options that end at `end`.
#[tactic(auto, unfolding(crate::specs::Options::async_rest, wire::specs::Read::check))]
fn read_async(s: &[u8], end: usize, update: usize, strings: Spans) -> Result<Options, Error>
    ensures { told result ≡ async_rest s.now end update strings }
{
    let at = strings.third.end;
    if end < 2 || end - 2 != at {
        return Err(wrong_size());
    }
    let asynchronous = u16_at(s, at)?;
    if !is_async(asynchronous) {
        return Err(Error::at(ErrorKind::Value, at));
    }
    Ok(Options {
        update,
        strings,
        asynchronous,
        end,
    })
}

// The options whose size is known.
#[tactic(auto, unfolding(crate::specs::Options::options_sized, wire::specs::Read::check), using(wire::proofs::Laws::whole_fits, wire::proofs::Laws::whole_short))]
fn read_sized(s: &[u8], size: usize) -> Result<Options, Error>
    ensures { told result ≡ options_sized s.now size }
{
    if lacks(s.len(), 3, size) {
        return Err(Error::short(s.len()));
    }
    if size < 25 {
        return Err(wrong_size());
    }
    match_at(s, 3, &GUID)?;
    read_rest(s, 3 + size)
}

// The handler options at the start of `s`.
#[tactic(auto, unfolding(crate::specs::Options::options_of), using(wire::proofs::Laws::sized_over, wire::proofs::Laws::sized_within))]
pub fn read_options(s: &[u8]) -> Result<Options, Error>
    ensures { told result ≡ options_of s.now }
{
    if LIMIT < s.len() {
        return Err(Error::at_start(ErrorKind::TooLarge, Input::Single));
    }
    match_at(s, 0, &TOKEN)?;
    let size = u16_at(s, 1)?;
    read_sized(s, size)
}

// The size of options with one string more, or the error that names it.
#[tactic(auto, unfolding(crate::specs::Options::size_with, wire::specs::Read::check, wire::specs::Read::about))]
fn add_string(size: usize, length: usize, name: Input) -> Result<usize, Error>
    ensures { told result ≡ size_with size length name }
{
    if lacks(65_535, size, length) {
        return Err(wrong_size().about(name));
    }
    Ok(size + length)
}

// The size of options with three strings of these lengths: each is within the limit, and together they fit a size.
#[tactic(auto, unfolding(crate::specs::Options::strings_size, crate::specs::Options::size_with))]
fn size_strings(first: usize, second: usize, third: usize) -> Result<usize, Error>
    ensures { told result ≡ strings_size first second third }
{
    check_size(first, Input::FirstString)?;
    check_size(second, Input::SecondString)?;
    check_size(third, Input::ThirdString)?;
    let one = add_string(25, first, Input::FirstString)?;
    let two = add_string(one, second, Input::SecondString)?;
    add_string(two, third, Input::ThirdString)
}

// The size of options with three strings of these lengths, where these and the async option are allowed.
#[tactic(auto, unfolding(crate::specs::Options::options_size, wire::specs::Read::check, wire::specs::Read::about), using(crate::proofs::Laws::strings_sizes))]
fn size_options(
    first: usize,
    second: usize,
    third: usize,
    asynchronous: usize,
) -> Result<usize, Error>
    ensures { told result ≡ options_size first second third asynchronous }
{
    let size = size_strings(first, second, third)?;
    if !is_async(asynchronous) {
        return Err(Error::at(ErrorKind::Value, size + 1).about(Input::Async));
    }
    Ok(size)
}

// Writes a string with its length into `out` from `at` on, where it fits.
#[tactic(auto, unfolding(crate::specs::Options::string_bytes), using(wire::proofs::Laws::put_put, wire::proofs::Laws::put_not, crate::proofs::Laws::length_string, wire::proofs::Laws::length_int))]
fn put_string(out: &mut [u8], at: usize, string: &[u8])
    requires { length string.now ≤ 65535 }
    ensures { out.new ≡ put out.old at (string_bytes string.now) }
{
    if lacks(out.len(), at, 2 + string.len()) {
        return;
    }
    put_u16(out, at, string.len() as u16);
    copy_into(out, at + 2, string);
}

// Writes all that stands before the strings at the start of `out`, where it fits.
#[tactic(auto, using(wire::proofs::Laws::put_not, crate::proofs::Laws::length_head))]
fn put_head(out: &mut [u8], size: usize)
    requires { size ≤ 65535 }
    ensures { out.new ≡ put out.old 0 (head_bytes size) }
{
    if out.len() < 20 {
        return;
    }
    copy_into(out, 0, &TOKEN);
    put_u16(out, 1, size as u16);
    copy_into(out, 3, &GUID);
    copy_into(out, 19, &UPDATE);
}

// Writes handler options with update type 1 at the start of `out`.
#[tactic(auto, using(crate::proofs::Laws::options_sized_lem))]
pub fn write_options(
    first: &[u8],
    second: &[u8],
    third: &[u8],
    asynchronous: u16,
    out: &mut [u8],
) -> Result<usize, Error>
    ensures { Wrote (options_written first.now second.now third.now asynchronous (length out.old)) out.old out.new result }
{
    let size = size_options(
        first.len(),
        second.len(),
        third.len(),
        usize::from(asynchronous),
    )?;
    if out.len() < 3 + size {
        return Err(Error::at(ErrorKind::Capacity, 3 + size).about(Input::Output));
    }
    put_head(out, size);
    put_string(out, 20, first);
    put_string(out, 22 + first.len(), second);
    put_string(out, 24 + first.len() + second.len(), third);
    put_u16(out, size + 1, asynchronous);
    Ok(3 + size)
}
