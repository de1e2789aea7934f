// Columns in the usual form, read quickly: a type code and flags, and of a variable type a maximum of one byte or two. It only says yes: of
// any other column, and of each that is refused, it tells nothing.
ghost use Rattle.std.specs.Prelude.{◌+◌, ◌≤◌, length};
ghost use Rattle.entry.specs.Heads.{fixed_head, variable_head, head_at};
ghost use Rattle.entry.specs.Usual.{Says, Behind, SaysBehind, Holding};

use crate::head::{ColumnHead, head_at};
use column::column::Column;
use column::packed::pack;
use column::types::{ColumnType, Kind};

// A column in one number, and where it ends.
#[derive(Clone, Copy)]
pub struct Usual {
    pub slot: u64,
    pub end: usize,
}

// The most bytes of such a column.
const MOST_BYTES: usize = 5;

// A column by its numbers.
#[tactic(auto, unfolding(column::specs::Packed::packed_column))]
fn slotted(column: Column, end: usize) -> Usual
    ensures { Holding column end result }
{
    Usual {
        slot: pack(column) as u64,
        end,
    }
}

// A column of fixed width, behind its code.
#[tactic(auto, using(crate::proofs::UsualForms::fixed_slotted))]
fn usual_fixed(file: &[u8], code: u8, at: usize) -> Option<Usual>
    requires { at + 1 ≤ length file.now }
    ensures { Says (fixed_head file.now code at) result }
{
    let flags = file[at];
    if 1 < flags {
        return None;
    }
    let column = Column {
        code,
        flags,
        maximum: 0,
    };
    Some(slotted(column, at + 1))
}

// A column of variable length, behind its code.
#[tactic(auto, using(crate::proofs::UsualForms::variable_slotted, crate::proofs::UsualForms::variable_long_slotted))]
fn usual_variable(file: &[u8], code: u8, at: usize) -> Option<Usual>
    requires { at + 3 ≤ length file.now }
    ensures { Says (variable_head file.now code at) result }
{
    let flags = file[at];
    if 1 < flags {
        return None;
    }
    let low = u16::from(file[at + 1]);
    if low < 1 {
        return None;
    }
    if low < 128 {
        let column = Column {
            code,
            flags,
            maximum: low,
        };
        return Some(slotted(column, at + 2));
    }
    let high = u16::from(file[at + 2]);
    if high < 1 || 127 < high {
        return None;
    }
    let column = Column {
        code,
        flags,
        maximum: low - 128 + 128 * high,
    };
    Some(slotted(column, at + 3))
}

// A column of any type, behind its code.
#[tactic(auto, unfolding(crate::specs::Heads::head_by))]
fn usual_by(file: &[u8], code: u8, at: usize) -> Option<Usual>
    requires { at + 3 ≤ length file.now }
    ensures { SaysBehind file.now code at result }
{
    let column_type = ColumnType { code };
    match column_type.kind() {
        Kind::Fixed(_) => usual_fixed(file, code, at),
        Kind::Variable | Kind::Wide => usual_variable(file, code, at),
        Kind::Chapter | Kind::Unknown => None,
    }
}

// Where the type code that stands at `at` ends; none where it is not in the shortest form.
#[tactic(auto, using(crate::proofs::UsualForms::head_one, crate::proofs::UsualForms::head_two))]
fn behind_code(file: &[u8], at: usize) -> Option<usize>
    requires { at + 2 ≤ length file.now }
    ensures { Behind file.now at result }
{
    if file[at] < 128 {
        return Some(at + 1);
    }
    if file[at + 1] != 1 {
        return None;
    }
    Some(at + 2)
}

// The column whose type code stands at `at`.
fn usual_at(file: &[u8], at: usize) -> Option<Usual>
    ensures { Says (head_at file.now at) result }
{
    if file.len() < MOST_BYTES || file.len() - MOST_BYTES < at {
        return None;
    }
    let behind = behind_code(file, at)?;
    usual_by(file, file[at], behind)
}

// The column whose type code stands at `at`, in whatever form. Of a chapter it tells nothing.
fn patient_at(file: &[u8], at: usize) -> Option<Usual>
    ensures { Says (head_at file.now at) result }
{
    match head_at(file, at) {
        Ok(ColumnHead::Field { column, end }) => Some(slotted(column, end)),
        _ => None,
    }
}

// The same, quickly where it is in the usual form.
pub fn plain_at(file: &[u8], at: usize) -> Option<Usual>
    ensures { Says (head_at file.now at) result }
{
    usual_at(file, at).or_else(|| patient_at(file, at))
}
