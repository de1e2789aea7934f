// The header of a tablegram (adtgHeader): nine bytes.
ghost use Rattle.std.specs.Prelude.{◌≡◌, length};
ghost use Rattle.wire.specs.Read.{told};
ghost use Rattle.wire.specs.Output.{Wrote};
ghost use Rattle.header.specs.Header.{header_of, header_fields, header_written};

use wire::LIMIT;
use wire::bytes::{copy_into, match_at};
use wire::error::{Error, ErrorKind, Input};
use wire::integer::u8_at;

// The constant bytes that a header starts with: a token, the size of what follows, "TG!".
pub const SIGNATURE: [u8; 5] = [0x01, 0x07, 0x54, 0x47, 0x21];

// What a header says, and where it ends.
#[derive(Clone, Copy)]
pub struct Header {
    pub major: usize,
    pub minor: usize,
    pub order: usize,
    pub unicode: usize,
    pub end: usize,
}

// The header at the start of `s`.
#[tactic(auto, unfolding(crate::specs::Header::header_of), using(wire::proofs::Laws::sized_over, wire::proofs::Laws::sized_within))]
pub fn read_header(s: &[u8]) -> Result<Header, Error>
    ensures { told result ≡ header_of s.now }
{
    if LIMIT < s.len() {
        return Err(Error::at_start(ErrorKind::TooLarge, Input::Single));
    }
    match_at(s, 0, &SIGNATURE)?;
    read_fields(s)
}

// What stands after the signature: the versions, the byte order and the unicode mark.
#[tactic(auto, unfolding(crate::specs::Header::header_fields, wire::specs::Read::check), using(wire::proofs::Laws::byte_int))]
fn read_fields(s: &[u8]) -> Result<Header, Error>
    ensures { told result ≡ header_fields s.now }
{
    let major = u8_at(s, 5)?;
    let minor = u8_at(s, 6)?;
    let order = u8_at(s, 7)?;
    if order != 0 {
        return Err(Error::at(ErrorKind::Value, 7));
    }
    let unicode = u8_at(s, 8)?;
    if 1 < unicode {
        return Err(Error::at(ErrorKind::Value, 8));
    }
    Ok(Header {
        major,
        minor,
        order,
        unicode,
        end: 9,
    })
}

// The bytes of a header, where its values are allowed and an output of so many bytes has room for them.
#[tactic(auto, unfolding(crate::specs::Header::header_written, wire::specs::Read::check, wire::specs::Read::about), using(wire::proofs::Laws::fitting_fits, wire::proofs::Laws::fitting_not))]
fn make_header(
    major: u8,
    minor: u8,
    order: u8,
    unicode: u8,
    capacity: usize,
) -> Result<[u8; 9], Error>
    ensures { told result ≡ header_written major minor order unicode capacity }
{
    if order != 0 {
        return Err(Error::at(ErrorKind::Value, 7).about(Input::Order));
    }
    if 1 < unicode {
        return Err(Error::at(ErrorKind::Value, 8).about(Input::Unicode));
    }
    if capacity < 9 {
        return Err(Error::at(ErrorKind::Capacity, 9).about(Input::Output));
    }
    let [token, size, t, g, mark] = SIGNATURE;
    Ok([token, size, t, g, mark, major, minor, order, unicode])
}

// Writes a header at the start of `out`.
pub fn write_header(
    major: u8,
    minor: u8,
    order: u8,
    unicode: u8,
    out: &mut [u8],
) -> Result<usize, Error>
    ensures { Wrote (header_written major minor order unicode (length out.old)) out.old out.new result }
{
    let bytes = make_header(major, minor, order, unicode, out.len())?;
    copy_into(out, 0, &bytes);
    Ok(9)
}

// Writes a header of the two versions, with byte order 0 and unicode 0.
pub fn write_header_short(major: u8, minor: u8, out: &mut [u8]) -> Result<usize, Error>
    ensures { Wrote (header_written major minor 0 0 (length out.old)) out.old out.new result }
{
    write_header(major, minor, 0, 0, out)
}
