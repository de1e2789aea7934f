// Answers about rows.
ghost use Rattle.std.specs.Prelude.{Ok};
ghost use Rattle.row.specs.Told.{told_look_up};
ghost use Rattle.update.specs.Told.{told_update, told_current};
ghost use Rattle.answers.specs.Answers.{Answered};
ghost use Rattle.answers.specs.RowAnswers.{look_up_values, update_values, current_values};

use crate::answer::{refuse, tell};
use row::rows::LookUp;
use update::current::CurrentValue;
use update::updates::UpdateLookUp;
use wire::error::Error;

// The numbers of a look-up in a row.
fn look_up_numbers(found: LookUp) -> [u64; 16]
    ensures { Answered look_up_values (told_look_up (Ok found)) 0 result }
{
    match found {
        LookUp::Found(f) => tell(&[1, f.start, f.end, f.prefixes]),
        LookUp::Null => tell(&[2]),
        LookUp::Chapter => tell(&[3]),
    }
}

// The answer of a look-up in a row.
// Kept: (b) a `match`, as in `answer_size`, here and below.
pub fn answer_look_up(found: Result<LookUp, Error>, out: &mut [u64; 16]) -> u32
    ensures { Answered look_up_values (told_look_up found) result out.new }
{
    match found {
        Err(e) => refuse(e, out),
        Ok(found) => {
            *out = look_up_numbers(found);
            0
        }
    }
}

// The numbers of a look-up in update data.
fn update_numbers(found: UpdateLookUp) -> [u64; 16]
    ensures { Answered update_values (told_update (Ok found)) 0 result }
{
    match found {
        UpdateLookUp::Found(f) => tell(&[1, f.start, f.end, f.prefixes]),
        UpdateLookUp::Null => tell(&[2]),
        UpdateLookUp::Chapter => tell(&[3]),
        UpdateLookUp::Unchanged => tell(&[4]),
    }
}

// The answer of a look-up in update data.
pub fn answer_update(found: Result<UpdateLookUp, Error>, out: &mut [u64; 16]) -> u32
    ensures { Answered update_values (told_update found) result out.new }
{
    match found {
        Err(e) => refuse(e, out),
        Ok(found) => {
            *out = update_numbers(found);
            0
        }
    }
}

// The numbers of a current value.
fn current_numbers(found: CurrentValue) -> [u64; 16]
    ensures { Answered current_values (told_current (Ok found)) 0 result }
{
    match found {
        CurrentValue::Updated(f) => tell(&[1, 2, f.start, f.end, f.prefixes]),
        CurrentValue::Forced => tell(&[2, 2]),
        CurrentValue::Original(LookUp::Found(f)) => tell(&[1, 1, f.start, f.end, f.prefixes]),
        CurrentValue::Original(LookUp::Null) => tell(&[2, 1]),
        CurrentValue::Original(LookUp::Chapter) => tell(&[3, 1]),
    }
}

// The answer of a current value.
pub fn answer_current(found: Result<CurrentValue, Error>, out: &mut [u64; 16]) -> u32
    ensures { Answered current_values (told_current found) result out.new }
{
    match found {
        Err(e) => refuse(e, out),
        Ok(found) => {
            *out = current_numbers(found);
            0
        }
    }
}
