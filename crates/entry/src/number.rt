// Numbers of a schema file: groups of seven bits, low group first, in the shortest form.
ghost use Rattle.std.specs.Prelude.{◌≡◌};
ghost use Rattle.tree.specs.Numbers.{number_at};
ghost use Rattle.tree.specs.Filling.{range_at};
ghost use Rattle.entry.specs.Heads.{group_at, told_number};
ghost use Rattle.wire.specs.Read.{told};

use wire::error::{Error, ErrorKind};

// A number that was read: its value, and the offset behind it.
#[derive(Clone, Copy)]
pub struct Number {
    pub value: usize,
    pub end: usize,
}

// The group at `at`: the byte, with its top bit where there is a group behind it.
#[tactic(auto, unfolding(wire::specs::Read::check, crate::specs::Heads::group_at))]
fn group_at(file: &[u8], at: usize) -> Result<usize, Error>
    ensures { told result ≡ group_at file.now at }
{
    if file.len() <= at {
        return Err(Error::short(file.len()));
    }
    Ok(usize::from(file[at]))
}

// The number at `at`.
#[tactic(auto, unfolding(wire::specs::Read::check, crate::specs::Heads::group_at, tree::specs::Numbers::number_at, tree::specs::Numbers::second_at, tree::specs::Numbers::third_at))]
pub fn number_at(file: &[u8], at: usize) -> Result<Number, Error>
    ensures { told_number result ≡ number_at file.now at }
{
    let a = group_at(file, at)?;
    if a < 128 {
        return Ok(Number {
            value: a,
            end: at + 1,
        });
    }
    let b = group_at(file, at + 1)?;
    if b < 1 {
        return Err(Error::at(ErrorKind::NumberForm, at));
    }
    if b < 128 {
        return Ok(Number {
            value: a - 128 + 128 * b,
            end: at + 2,
        });
    }
    let c = group_at(file, at + 2)?;
    if c < 1 || 127 < c {
        return Err(Error::at(ErrorKind::NumberForm, at));
    }
    Ok(Number {
        value: a - 128 + 128 * (b - 128) + 16_384 * c,
        end: at + 3,
    })
}

// The number at `at`, which is to lie in a range.
#[tactic(auto, unfolding(wire::specs::Read::check, tree::specs::Filling::range_at))]
pub fn range_at(file: &[u8], at: usize, low: usize, high: usize) -> Result<Number, Error>
    ensures { told_number result ≡ range_at low high file.now at }
{
    let number = number_at(file, at)?;
    if number.value < low || high < number.value {
        return Err(Error::at(ErrorKind::Range, at));
    }
    Ok(number)
}
