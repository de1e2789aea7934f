// The calls of a reader, by value: a record and a fragment in, the next record and an answer out.
ghost use Rattle.std.specs.Prelude.{◌≡◌, ◌+◌, ◌*◌, ◌≤◌, length, eqb, Ok, IfOk};
ghost use Rattle.wire.specs.declared.error.Input.TheVariants as input;
ghost use Rattle.wire.specs.Errors.{code_of};
ghost use Rattle.wire.specs.Read.{pick};
ghost use Rattle.tree.specs.Table.{schemas_in};
ghost use Rattle.schema.specs.Told.{blank};
ghost use Rattle.feeding.specs.Machine.{State, feed};
ghost use Rattle.feeding.specs.Feeding.{take_in, standing, completed, failed};
ghost use Rattle.feeding.specs.Answers.{going, complete};
ghost use Rattle.incremental.specs.Record.{state_in, reader_in};
ghost use Rattle.incremental.specs.Calls.{record_fed, answer_fed, record_closed, answer_closed, told_fed};
ghost use Rattle.incremental.specs.Steps.{Placed, place_in, Sane, Reached, Left, Tells, FileRead};

use crate::record::{
    BETWEEN, BODY, CLOSED, FINISHED, REFUSED, Reader, input_in, is_fit, plain, refusal, tidy,
};
use crate::sheet::Sheet;
use crate::take::take_in;
use quick::ends::row_step;
use schema::reader::{Place, read_file};
use section::check::{FEW_NUMBERS, MOST_NUMBERS};
use shapes::shapes::keep_schemas;
use wire::LIMIT;
use wire::error::{Error, ErrorKind, Input, about};

// So many whole elements and more to come; or so many rows, and the section is complete.
#[derive(Clone, Copy, PartialEq, Eq)]
pub enum Fed {
    Going(usize),
    Complete(usize),
}

// The next record, and what is answered.
#[derive(Clone, Copy)]
pub struct Next {
    pub reader: Reader,
    pub answer: Result<Fed, Error>,
}

// A refusal, which stands.
#[tactic(auto, unfolding(crate::specs::Record::record_of))]
fn refuse(e: Error) -> Next
    ensures { Tells (failed (code_of e.kind) e.offset e.input) result }
{
    Next {
        reader: refusal(e),
        answer: Err(e),
    }
}

// A count of rows, which stands.
#[tactic(auto, unfolding(crate::specs::Record::record_of))]
fn complete(rows: usize) -> Next
    ensures { Tells (completed rows) result }
{
    Next {
        reader: plain(CLOSED, rows, 0),
        answer: Ok(Fed::Complete(rows)),
    }
}

// A record that no call makes.
fn unknown_reader() -> Next
    ensures { Tells (failed 18 0 input.Reader) result }
{
    refuse(Error::at_start(ErrorKind::Missing, Input::Reader))
}

// A record that is no state's: an answer that stands, or none that a call makes.
#[tactic(auto, using(crate::proofs::FeedLaws::reader_closed, crate::proofs::FeedLaws::reader_refused, crate::proofs::FeedLaws::reader_unknown, crate::proofs::FeedLaws::reader_none, crate::proofs::FeedLaws::code_known, crate::proofs::FeedLaws::code_unknown))]
fn stand(r: &Reader) -> Next
    requires { 8 ≤ r.now.stage }
    ensures { Tells (reader_in r.now) result }
{
    if r.stage == CLOSED {
        return complete(r.rows);
    }
    if r.stage != REFUSED {
        return unknown_reader();
    }
    match ErrorKind::try_from(r.code) {
        Ok(kind) => refuse(Error {
            kind,
            offset: r.at,
            input: input_in(r.input),
        }),
        Err(_) => unknown_reader(),
    }
}

// What a state that a call has come to answers, or a refusal of the section.
fn tell(answer: Result<Reader, Error>) -> Next
    requires { IfOk answer (λ r. Sane r (place_in r)) }
    ensures { (st : State) → Left st answer → Tells (standing st) result }
{
    match answer {
        Err(e) => refuse(e.about(Input::Section)),
        Ok(r) => Next {
            reader: tidy(&r),
            answer: Ok(rows_of(&r)),
        },
    }
}

// So many rows, by the record of a state.
fn rows_of(r: &Reader) -> Fed
    ensures { told_fed (Ok result) ≡ pick (eqb r.now.stage 7) (complete r.now.rows) (going r.now.rows) }
{
    if r.stage == FINISHED {
        Fed::Complete(r.rows)
    } else {
        Fed::Going(r.rows)
    }
}

// Reads the schema file into a table of slots.
#[tactic(auto, using(crate::proofs::FeedLaws::file_large, crate::proofs::FeedLaws::file_told))]
// Kept: beside `read_schemas` of `section`, which checks the section too; what both have a `requires` for, no other crate can call.
fn read_schemas(file: &[u8], slots: &mut [u64; 512]) -> Result<Place, Error>
    requires { slots.old ≡ blank }
    ensures { FileRead file.now slots.new result }
{
    if file.len() > LIMIT {
        return Err(Error::at_start(ErrorKind::TooLarge, Input::Schema));
    }
    about(read_file(file, slots), Input::Schema)
}

// Takes in a fragment within the limit, by schemas whose shapes so many numbers hold. It is not inlined: a call needs the stack of one table of shapes.
#[inline(never)]
fn feed_by<const N: usize>(
    slots: &[u64; 512],
    place: Place,
    reader: &Reader,
    fragment: &[u8],
) -> Result<Reader, Error>
    requires { Placed slots.now place × (8 * place.schemas + 4 * place.columns ≤ N) × (N ≤ 3072) × Sane reader.now (place_in reader.now) × (place_in reader.now + length fragment.now ≤ 16777216) }
    ensures { Reached (feed (schemas_in 0 place.schemas slots.now) (state_in reader.now) fragment.now) (place_in reader.now + length fragment.now) result }
{
    let mut shapes = [0usize; N];
    keep_schemas(slots, place.schemas, &mut shapes);
    let sheet = Sheet {
        slots,
        schemas: place.schemas,
        shapes: &shapes,
        step: row_step(&shapes),
    };
    take_in(&sheet, reader, fragment)
}

// Takes in a fragment within the limit. To clear more numbers than few schemas need takes time.
fn feed_rows(
    slots: &[u64; 512],
    place: Place,
    reader: &Reader,
    fragment: &[u8],
) -> Result<Reader, Error>
    requires { Placed slots.now place × Sane reader.now (place_in reader.now) × (place_in reader.now + length fragment.now ≤ 16777216) }
    ensures { Reached (feed (schemas_in 0 place.schemas slots.now) (state_in reader.now) fragment.now) (place_in reader.now + length fragment.now) result }
{
    if 8 * place.schemas + 4 * place.columns <= FEW_NUMBERS {
        feed_by::<FEW_NUMBERS>(slots, place, reader, fragment)
    } else {
        feed_by::<MOST_NUMBERS>(slots, place, reader, fragment)
    }
}

// The bytes so far.
fn total(r: &Reader) -> usize
    requires { Sane r.now (place_in r.now) × (r.now.at ≤ 16777216) }
    ensures { result ≡ place_in r.now }
{
    if r.stage == BETWEEN || BODY <= r.stage {
        r.at
    } else {
        r.at + r.filled
    }
}

// Takes in a fragment. A byte over the limit is refused, where nothing before it is.
#[tactic(auto, using(crate::proofs::FeedLaws::taken_none, crate::proofs::FeedLaws::taken_full, crate::proofs::FeedLaws::taken_all, crate::proofs::FeedLaws::taken_stopped, crate::proofs::FeedLaws::taken_cut, crate::proofs::FeedLaws::left_exit))]
fn feed_any(
    slots: &[u64; 512],
    place: Place,
    reader: &Reader,
    fragment: &[u8],
) -> Result<Reader, Error>
    requires { Placed slots.now place × Sane reader.now (place_in reader.now) × (reader.now.at ≤ 16777216) }
    ensures { Left (take_in (schemas_in 0 place.schemas slots.now) (state_in reader.now) fragment.now) result }
{
    let before = total(reader);
    if fragment.is_empty() {
        return Ok(*reader);
    }
    if LIMIT <= before {
        return Err(Error::at(ErrorKind::TooLarge, 0));
    }
    let size = fragment.len().min(LIMIT - before);
    let next = feed_rows(slots, place, reader, &fragment[..size])?;
    if size < fragment.len() {
        Err(Error::at(ErrorKind::TooLarge, 0))
    } else {
        Ok(next)
    }
}

// Feeds a fragment.
pub fn feed_step(file: &[u8], reader: Reader, fragment: &[u8]) -> Next
    ensures { (result.reader ≡ record_fed file.now reader fragment.now) × (told_fed result.answer ≡ answer_fed file.now reader fragment.now) }
{
    if REFUSED <= reader.stage {
        return stand(&reader);
    }
    if !is_fit(&reader) {
        return unknown_reader();
    }
    let mut slots = [0u64; 512];
    match read_schemas(file, &mut slots) {
        Err(e) => refuse(e),
        Ok(p) => tell(feed_any(&slots, p, &reader, fragment)),
    }
}

// Ends the input.
pub fn close_step(file: &[u8], reader: Reader) -> Next
    ensures { (result.reader ≡ record_closed file.now reader) × (told_fed result.answer ≡ answer_closed file.now reader) }
{
    if REFUSED <= reader.stage {
        return stand(&reader);
    }
    if !is_fit(&reader) {
        return unknown_reader();
    }
    let mut slots = [0u64; 512];
    if let Err(e) = read_schemas(file, &mut slots) {
        return refuse(e);
    }
    if reader.stage == FINISHED {
        return complete(reader.rows);
    }
    refuse(Error::short(total(&reader)).about(Input::Section))
}
