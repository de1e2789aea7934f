// A fragment taken in.
ghost use Rattle.std.specs.Prelude.{◌≡◌, ◌+◌, ◌-◌, ◌≤◌, ◌<◌, length, Ok};
ghost use Rattle.section.specs.Heads.{before_in};
ghost use Rattle.tree.specs.Schemas.{child_number, or0};
ghost use Rattle.feeding.specs.Machine.{between, feed};
ghost use Rattle.incremental.specs.Parts.{before_told};
ghost use Rattle.incremental.specs.Record.{state_in};
ghost use Rattle.incremental.specs.Steps.{schemas_of, Ready, Movable, Sane, Stands, Reached, MovedOn, child_before, place_in};

use crate::fields::{Moved, seek_on};
use crate::pieces::{keep_bytes, read_token};
use crate::record::{BETWEEN, BODY, FINISHED, Reader, plain};
use crate::sheet::Sheet;
use schema::children::{child_number, id_in};
use section::pass::pass_elements;
use shapes::shapes::SCHEMAS;
use wire::error::{Error, ErrorKind};

// The number of the schema of an 87 element directly before; 0 where there is none.
// Kept: (a) `pass_elements` promises of such a number.
#[tactic(auto, using(crate::proofs::FieldLaws::number_low, crate::proofs::FieldLaws::or0_told))]
fn child_of(sheet: &Sheet, before: Option<usize>) -> usize
    ensures { (result ≡ child_before (schemas_of sheet.now) (before_told before)) × (result < sheet.now.schemas) }
{
    match before {
        None => 0,
        Some(id) => child_number(sheet.slots, sheet.schemas, id as u64).unwrap_or(0),
    }
}

// The record behind whole elements that were passed.
fn behind_elements(slots: &[u64; 512], rows: usize, at: usize, child: usize) -> Reader
    requires { (rows ≤ at) × (at ≤ 16777216) × (child < 256) }
    ensures { Stands (between rows at (before_in slots.now child)) at result }
{
    let before = if 0 < child {
        Some(id_in(slots[SCHEMAS + child]) as usize)
    } else {
        None
    };
    plain(BETWEEN, rows, at).behind(before)
}

// Between elements: whole ones are passed, then a token is read, where there is one.
#[tactic(auto, using(crate::proofs::StateLaws::place_between, crate::proofs::PassLaws::passes_behind, crate::proofs::TakeLaws::moved_elements, crate::proofs::TakeLaws::moved_token, crate::proofs::TakeLaws::token_stopped, crate::proofs::TakeLaws::moved_exit))]
fn from_token(sheet: &Sheet, r: &Reader, fragment: &[u8], at: usize) -> Result<Moved, Error>
    requires { Ready sheet.now × Movable fragment.now r.now at × (r.now.stage ≡ 0) }
    ensures { MovedOn (schemas_of sheet.now) fragment.now r.now at result }
{
    let before = r.before();
    let child = child_of(sheet, before);
    let passed = pass_elements(
        sheet.slots,
        sheet.shapes,
        sheet.schemas,
        fragment,
        sheet.step,
        at,
        child,
    );
    let to = passed.at;
    if at < to {
        return Ok(Moved {
            reader: behind_elements(
                sheet.slots,
                r.rows + passed.rows,
                r.at + (to - at),
                passed.child,
            ),
            at: to,
        });
    }
    Ok(Moved {
        reader: read_token(sheet, r.rows, r.at, before, fragment[at])?,
        at: at + 1,
    })
}

// The bytes of a field, as many as there are; behind the last, the fields that are whole.
#[tactic(auto, using(crate::proofs::StateLaws::body_stands, crate::proofs::TakeLaws::moved_body, crate::proofs::TakeLaws::moved_within))]
fn over_body(sheet: &Sheet, r: &Reader, fragment: &[u8], at: usize) -> Moved
    requires { Movable fragment.now r.now at × (r.now.stage ≡ 6) }
    ensures { MovedOn (schemas_of sheet.now) fragment.now r.now at (Ok result) }
{
    let left = fragment.len() - at;
    if r.more < left {
        let size = r.more + 1;
        return seek_on(sheet, r, r.at + size, r.column, fragment, at + size);
    }
    Moved {
        reader: Reader {
            at: r.at + left,
            more: r.more - left,
            ..*r
        },
        at: at + left,
    }
}

// The bytes of a piece, as many as there are.
#[tactic(auto, using(crate::proofs::TakeLaws::moved_piece, crate::proofs::TakeLaws::part_stopped, crate::proofs::TakeLaws::moved_exit))]
fn over_piece(sheet: &Sheet, r: &Reader, fragment: &[u8], at: usize) -> Result<Moved, Error>
    requires { Movable fragment.now r.now at × (1 ≤ r.now.stage) × (r.now.stage ≤ 5) }
    ensures { MovedOn (schemas_of sheet.now) fragment.now r.now at result }
{
    let to = at + (r.more + 1).min(fragment.len() - at);
    Ok(Moved {
        reader: keep_bytes(sheet, r, &fragment[at..to])?,
        at: to,
    })
}

// One move over a fragment.
#[tactic(auto, using(crate::proofs::TakeLaws::done_stopped))]
fn move_on(sheet: &Sheet, r: &Reader, fragment: &[u8], at: usize) -> Result<Moved, Error>
    requires { Ready sheet.now × Movable fragment.now r.now at }
    ensures { MovedOn (schemas_of sheet.now) fragment.now r.now at result }
{
    match r.stage {
        BETWEEN => from_token(sheet, r, fragment, at),
        BODY => Ok(over_body(sheet, r, fragment, at)),
        FINISHED => Err(Error::at(ErrorKind::Trailing, r.at)),
        _ => over_piece(sheet, r, fragment, at),
    }
}

// Takes in a fragment.
// Kept: (d) only the move before says where a move starts, so no range does.
#[tactic(auto, using(crate::proofs::TakeLaws::taking_ready, crate::proofs::TakeLaws::taking_end))]
pub(crate) fn take_in(sheet: &Sheet, reader: &Reader, fragment: &[u8]) -> Result<Reader, Error>
    requires { Ready sheet.now × Sane reader.now (place_in reader.now) × (place_in reader.now + length fragment.now ≤ 16777216) }
    ensures { Reached (feed (schemas_of sheet.now) (state_in reader.now) fragment.now) (place_in reader.now + length fragment.now) result }
{
    let mut r = *reader;
    let mut at = 0;
    while at < fragment.len() {
        let moved = move_on(sheet, &r, fragment, at)?;
        r = moved.reader;
        at = moved.at;
    }
    Ok(r)
}
