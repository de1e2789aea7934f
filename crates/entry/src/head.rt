// The numbers of one column up to a nested schema: its type code, its flags, and by type a maximum or a child id.
ghost use Rattle.std.specs.Prelude.{◌≡◌};
ghost use Rattle.entry.specs.Heads.{fixed_head, variable_head, chapter_head, head_at, told_head};

use crate::number::{Number, number_at, range_at};
use crate::{MOST_FLAGS, MOST_MAXIMUM};
use column::column::Column;
use column::types::{ColumnType, Kind};
use wire::error::{Error, ErrorKind, Input};

// The numbers of a column that was read. Of a chapter: where its id stands, which may be one seen before.
#[derive(Clone, Copy)]
pub enum ColumnHead {
    Field {
        column: Column,
        end: usize,
    },
    Chapter {
        flags: u8,
        id: usize,
        id_at: usize,
        end: usize,
    },
}

// A column of fixed width, behind its code.
#[tactic(auto, unfolding(crate::specs::Heads::fixed_head), using(crate::proofs::Heads::range_inside))]
fn fixed_head(file: &[u8], code: u8, at: usize) -> Result<ColumnHead, Error>
    ensures { told_head result ≡ fixed_head file.now code at }
{
    let flags = range_at(file, at, 0, MOST_FLAGS)?;
    Ok(ColumnHead::Field {
        column: Column {
            code,
            flags: flags.value as u8,
            maximum: 0,
        },
        end: flags.end,
    })
}

// A column of variable length, behind its code.
#[tactic(auto, unfolding(crate::specs::Heads::variable_head), using(crate::proofs::Heads::range_inside))]
fn variable_head(file: &[u8], code: u8, at: usize) -> Result<ColumnHead, Error>
    ensures { told_head result ≡ variable_head file.now code at }
{
    let flags = range_at(file, at, 0, MOST_FLAGS)?;
    let maximum = range_at(file, flags.end, 1, MOST_MAXIMUM)?;
    Ok(ColumnHead::Field {
        column: Column {
            code,
            flags: flags.value as u8,
            maximum: maximum.value as u16,
        },
        end: maximum.end,
    })
}

// A chapter, behind its code.
#[tactic(auto, unfolding(crate::specs::Heads::chapter_head), using(crate::proofs::Heads::range_inside))]
fn chapter_head(file: &[u8], at: usize) -> Result<ColumnHead, Error>
    ensures { told_head result ≡ chapter_head file.now at }
{
    let flags = range_at(file, at, 0, MOST_FLAGS)?;
    let id = number_at(file, flags.end)?;
    Ok(ColumnHead::Chapter {
        flags: flags.value as u8,
        id: id.value,
        id_at: flags.end,
        end: id.end,
    })
}

// The column whose type code stands at `at`.
#[tactic(auto, unfolding(crate::specs::Heads::head_at, crate::specs::Heads::head_by), using(crate::proofs::Heads::unknown_code))]
pub fn head_at(file: &[u8], at: usize) -> Result<ColumnHead, Error>
    ensures { told_head result ≡ head_at file.now at }
{
    let Number { value, end } = number_at(file, at)?;
    let Ok(code) = u8::try_from(value) else {
        return Err(Error::at(ErrorKind::Range, at));
    };
    let column_type = ColumnType { code };
    match column_type.kind() {
        Kind::Fixed(_) => fixed_head(file, code, end),
        Kind::Variable | Kind::Wide => variable_head(file, code, end),
        Kind::Chapter => chapter_head(file, end),
        Kind::Unknown => Err(Error::at(ErrorKind::Range, at)),
    }
}
