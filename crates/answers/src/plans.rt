// Answers about plans: a place, a look-up.
ghost use Rattle.std.specs.Prelude.{◌≡◌, Ok};
ghost use Rattle.row.specs.Told.{told_look_up};
ghost use Rattle.plan.specs.Told.{told_place};
ghost use Rattle.answers.specs.Answers.{Answered};
ghost use Rattle.answers.specs.PlanAnswers.{found_answer, place_values};

use crate::answer::{refuse, tell};
use row::rows::LookUp;
use wire::error::Error;

// What a look-up through a plan answers.
// Kept: numbers for its kind and an error, as the C interface has them.
#[repr(C)]
#[derive(Clone, Copy)]
pub struct FoundAnswer {
    pub code: u32,
    pub kind: u32,
    pub first: u64,
    pub second: u64,
    pub prefixes: u64,
}

// The numbers of a place.
fn place_numbers(place: Option<usize>) -> [u64; 16]
    ensures { Answered place_values (told_place (Ok place)) 0 result }
{
    match place {
        Some(n) => tell(&[1, n]),
        None => tell(&[2]),
    }
}

// The answer of a question for a place.
// Kept: (b) a `match`, as in `answer_size`.
pub fn answer_place(place: Result<Option<usize>, Error>, out: &mut [u64; 16]) -> u32
    ensures { Answered place_values (told_place place) result out.new }
{
    match place {
        Err(e) => refuse(e, out),
        Ok(place) => {
            *out = place_numbers(place);
            0
        }
    }
}

// The answer of a look-up, as a value.
pub fn found_answer(answer: Result<LookUp, Error>) -> FoundAnswer
    ensures { result ≡ found_answer (told_look_up answer) }
{
    match answer {
        Ok(LookUp::Found(f)) => FoundAnswer {
            code: 0,
            kind: 1,
            first: f.start as u64,
            second: f.end as u64,
            prefixes: f.prefixes as u64,
        },
        Ok(LookUp::Null) => FoundAnswer {
            code: 0,
            kind: 2,
            first: 0,
            second: 0,
            prefixes: 0,
        },
        Ok(LookUp::Chapter) => FoundAnswer {
            code: 0,
            kind: 3,
            first: 0,
            second: 0,
            prefixes: 0,
        },
        Err(e) => FoundAnswer {
            code: e.kind.code(),
            kind: 0,
            first: e.offset as u64,
            second: e.input.number(),
            prefixes: 0,
        },
    }
}
