// The head of a tablegram: the header and the handler options, read and written.
ghost use Rattle.std.specs.Prelude.{length, ◌≡◌};
ghost use Rattle.wire.specs.Read.{ok};
ghost use Rattle.wire.specs.Output.{size_of, output_after};
ghost use Rattle.header.specs.Header.{header_of, header_written};
ghost use Rattle.options.specs.Options.{options_of, options_written};
ghost use Rattle.answers.specs.Answers.{Answered, size_values};
ghost use Rattle.adtg_c.specs.FileAnswers.{header_values, options_values};

use answers::answer::{answer, answer_size, refuse, tell};
use header::header::{Header, read_header, write_header, write_header_short};
use options::options::{Options, Spans, read_options, write_options};

// The numbers of a header.
fn header_numbers(h: Header) -> [u64; 16]
    ensures { Answered header_values (ok h) 0 result }
{
    tell(&[h.major, h.minor, h.order, h.unicode, h.end])
}

// The header at the start of `bytes`: major, minor, byte order, unicode, end.
// Kept: (b) a `match`, as in `answer_size` of `answers`.
#[unsafe(no_mangle)]
pub extern "C" fn adtg_read_header(bytes: &[u8], out: &mut [u64; 16]) -> u32
    ensures { Answered header_values (header_of bytes.now) result out.new }
{
    match read_header(bytes) {
        Err(e) => refuse(e, out),
        Ok(h) => {
            *out = header_numbers(h);
            0
        }
    }
}

// Writes a header at the start of `dst`: bytes written.
#[unsafe(no_mangle)]
pub extern "C" fn adtg_write_header(
    major: u8,
    minor: u8,
    order: u8,
    unicode: u8,
    dst: &mut [u8],
    out: &mut [u64; 16],
) -> u32
    ensures answers { Answered size_values (size_of (header_written major minor order unicode (length dst.old))) result out.new }
    ensures leaves { dst.new ≡ output_after (header_written major minor order unicode (length dst.old)) dst.old }
{
    answer_size(write_header(major, minor, order, unicode, dst), out)
}

// Writes a header of the two versions, with byte order 0 and unicode 0, at the start of `dst`: bytes written.
#[unsafe(no_mangle)]
pub extern "C" fn adtg_write_header_short(
    major: u8,
    minor: u8,
    dst: &mut [u8],
    out: &mut [u64; 16],
) -> u32
    ensures answers { Answered size_values (size_of (header_written major minor 0 0 (length dst.old))) result out.new }
    ensures leaves { dst.new ≡ output_after (header_written major minor 0 0 (length dst.old)) dst.old }
{
    answer_size(write_header_short(major, minor, dst), out)
}

// The numbers of handler options.
fn options_numbers(o: Options) -> [u64; 16]
    ensures { Answered options_values (ok o) 0 result }
{
    let Spans {
        first,
        second,
        third,
    } = o.strings;
    tell(&[
        o.update,
        first.start,
        first.end,
        second.start,
        second.end,
        third.start,
        third.end,
        o.asynchronous,
        o.end,
    ])
}

// The handler options at the start of `bytes`: update type, the two ends of each string, async option, end.
#[unsafe(no_mangle)]
pub extern "C" fn adtg_read_options(bytes: &[u8], out: &mut [u64; 16]) -> u32
    ensures { Answered options_values (options_of bytes.now) result out.new }
{
    answer(read_options(bytes).map(options_numbers), out)
}

// Writes handler options at the start of `dst`: bytes written.
#[unsafe(no_mangle)]
pub extern "C" fn adtg_write_options(
    first: &[u8],
    second: &[u8],
    third: &[u8],
    asynchronous: u16,
    dst: &mut [u8],
    out: &mut [u64; 16],
) -> u32
    ensures answers { Answered size_values (size_of (options_written first.now second.now third.now asynchronous (length dst.old))) result out.new }
    ensures leaves { dst.new ≡ output_after (options_written first.now second.now third.now asynchronous (length dst.old)) dst.old }
{
    answer_size(write_options(first, second, third, asynchronous, dst), out)
}
