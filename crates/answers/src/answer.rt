// An answer as sixteen numbers and a status.
ghost use Rattle.std.specs.Prelude.{◌≡◌, ◌≤◌, length, MatchResult, Ok};
ghost use Rattle.wire.specs.Read.{refused, told};
ghost use Rattle.answers.specs.Answers.{Answered, padded, size_values, unit_values, no_values};

use wire::error::Error;

// Up to sixteen numbers as an answer, and zeros.
pub fn tell(values: &[usize]) -> [u64; 16]
    ensures { length values.now ≤ 16 → result ≡ padded values.now }
{
    let mut numbers = [0u64; 16];
    for i in 0..values.len().min(16) {
        numbers[i] = values[i] as u64;
    }
    numbers
}

// The answer of a call that is refused.
pub fn refuse(e: Error, out: &mut [u64; 16]) -> u32
    ensures { Answered no_values (refused e) result out.new }
{
    *out = [0; 16];
    out[0] = e.offset as u64;
    out[1] = e.input.number();
    e.kind.code()
}

// The answer of a call that gives these numbers.
pub fn answer(numbers: Result<[u64; 16], Error>, out: &mut [u64; 16]) -> u32
    ensures { MatchResult numbers (λ l. (result ≡ 0) × (out.new ≡ l)) (λ e. Answered no_values (refused e) result out.new) }
{
    match numbers {
        Err(e) => refuse(e, out),
        Ok(numbers) => {
            *out = numbers;
            0
        }
    }
}

// One number.
fn size_numbers(size: usize) -> [u64; 16]
    ensures { Answered size_values (told (Ok size)) 0 result }
{
    tell(&[size])
}

// The answer of a call that gives one number.
// Kept: (b) a `match` that writes into `out`, as for a place and for rows; through `answer` a short call takes up to a third longer.
pub fn answer_size(size: Result<usize, Error>, out: &mut [u64; 16]) -> u32
    ensures { Answered size_values (told size) result out.new }
{
    match size {
        Err(error) => refuse(error, out),
        Ok(size) => {
            *out = size_numbers(size);
            0
        }
    }
}

// No number.
fn no_numbers(done: ()) -> [u64; 16]
    ensures { Answered unit_values (told (Ok done)) 0 result }
{
    tell(&[])
}

// The answer of a check.
pub fn answer_match(checked: Result<(), Error>, out: &mut [u64; 16]) -> u32
    ensures { Answered unit_values (told checked) result out.new }
{
    answer(checked.map(no_numbers), out)
}
