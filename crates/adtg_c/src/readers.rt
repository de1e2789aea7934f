// Row sections that arrive in fragments. The record of a reader is lent: each call leaves the next record in its place.
ghost use Rattle.std.specs.Prelude.{◌≡◌};
ghost use Rattle.feeding.specs.Feeding.{first};
ghost use Rattle.incremental.specs.Record.{record_of};
ghost use Rattle.incremental.specs.Calls.{record_fed, answer_fed, record_closed, answer_closed, told_fed};
ghost use Rattle.adtg_c.specs.FedAnswers.{fed_answer};

use incremental::feed::Fed;
use incremental::lent::{close, feed};
use incremental::record::{Reader, first_reader};
use wire::error::Error;

// What a reader answers: 0 and how far it is, with a count; or the error's code, offset and input.
// Kept: numbers for how far it is and an error, as the C interface has them.
#[repr(C)]
#[derive(Clone, Copy)]
pub struct FedAnswer {
    pub code: u32,
    pub progress: u32,
    pub first: u64,
    pub second: u64,
}

// The next record and the answer, for a caller that keeps records by value.
#[derive(Clone, Copy)]
pub struct NextAnswer {
    pub reader: Reader,
    pub answer: FedAnswer,
}

// An answer as numbers.
fn tell_fed(fed: Result<Fed, Error>) -> FedAnswer
    ensures { result ≡ fed_answer (told_fed fed) }
{
    match fed {
        Ok(Fed::Going(n)) => FedAnswer {
            code: 0,
            progress: 1,
            first: n as u64,
            second: 0,
        },
        Ok(Fed::Complete(n)) => FedAnswer {
            code: 0,
            progress: 2,
            first: n as u64,
            second: 0,
        },
        Err(e) => FedAnswer {
            code: e.kind.code(),
            progress: 0,
            first: e.offset as u64,
            second: e.input.number(),
        },
    }
}

// The record of a reader that was fed nothing.
#[unsafe(no_mangle)]
pub extern "C" fn adtg_first_reader() -> Reader
    ensures { result ≡ record_of first }
{
    first_reader()
}

// Feeds a fragment to a reader.
#[unsafe(no_mangle)]
pub extern "C" fn adtg_feed(file: &[u8], reader: &mut Reader, fragment: &[u8]) -> FedAnswer
    ensures { (reader.new ≡ record_fed file.now reader.old fragment.now) × (result ≡ fed_answer (answer_fed file.now reader.old fragment.now)) }
{
    tell_fed(feed(file, reader, fragment))
}

// Ends the input of a reader.
#[unsafe(no_mangle)]
pub extern "C" fn adtg_close(file: &[u8], reader: &mut Reader) -> FedAnswer
    ensures { (reader.new ≡ record_closed file.now reader.old) × (result ≡ fed_answer (answer_closed file.now reader.old)) }
{
    tell_fed(close(file, reader))
}
