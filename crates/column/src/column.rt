// A column of a schema: its type, its flags and its maximum length; and what these decide of its fields.
ghost use Rattle.std.specs.Prelude.{◌≡◌, ◌<◌, eqb};
ghost use Rattle.column.specs.Columns.{is_variable, is_wide, is_chapter, is_nullable, is_stop, width, prefix_size, prefix_bytes, greatest, length_error_of, length_error, told_length};

use crate::types::ColumnType;
use wire::error::ErrorKind;

// A column. Flags are 1 for nullable, else 0; the maximum is that of a variable type.
#[derive(Clone, Copy)]
pub struct Column {
    pub code: u8,
    // Kept: plans promise to hold and compare any byte of flags, so they are a number and no enum.
    pub flags: u8,
    pub maximum: u16,
}

// Whether a length of so many bytes is allowed: it may reach `most`, and where `even` says so it must be even. No branch depends on that.
#[tactic(auto, using(crate::proofs::Laws::rule_over, crate::proofs::Laws::rule_under))]
pub fn allows(most: usize, even: bool, size: usize) -> bool
    ensures { result ≡ eqb (length_error_of most even size) 0 }
{
    // Kept: (b) as one `&&` a look-up through a plan takes 6 percent more instructions.
    if most < size {
        return false;
    }
    usize::from(even) * (size % 2) == 0
}

// The same as a check, with the error that such a length is.
#[tactic(auto, using(crate::proofs::Laws::rule_refused))]
pub fn check_length(most: usize, even: bool, size: usize) -> Result<(), ErrorKind>
    ensures { told_length result ≡ length_error_of most even size }
{
    if allows(most, even, size) {
        Ok(())
    } else {
        Err(ErrorKind::Length)
    }
}

impl Column {
    // Whether the column's fields carry a length.
    #[tactic(auto, using(crate::proofs::Laws::bytes_code, crate::proofs::Laws::text_code, crate::proofs::Laws::wide_code))]
    pub fn is_variable(self) -> bool
        ensures { result ≡ is_variable self }
    {
        // Kept: as `matches!` on the code the proof did not close.
        self.code == ColumnType::BYTES
            || self.code == ColumnType::STR
            || self.code == ColumnType::WSTR
    }

    // Whether its lengths count bytes of wide text.
    #[tactic(auto, using(crate::proofs::Laws::wide_told))]
    pub fn is_wide(self) -> bool
        ensures { result ≡ is_wide self }
    {
        self.code == ColumnType::WSTR
    }

    // Whether the column is a chapter, which has no field.
    #[tactic(auto, using(crate::proofs::Laws::chapter_code_lem))]
    pub fn is_chapter(self) -> bool
        ensures { result ≡ is_chapter self }
    {
        self.code == ColumnType::CHAPTER
    }

    // Whether the column may be null.
    #[tactic(auto, unfolding(crate::specs::Columns::is_nullable))]
    pub fn is_nullable(self) -> bool
        ensures { result ≡ is_nullable self }
    {
        self.flags == 1
    }

    // Whether places behind the column depend on the row.
    #[tactic(auto, unfolding(crate::specs::Columns::is_stop))]
    pub fn is_stop(self) -> bool
        ensures { result ≡ is_stop self }
    {
        !self.is_chapter() && (self.is_nullable() || self.is_variable())
    }

    // The bytes of a field of fixed width; 0 for other columns.
    pub fn width(self) -> usize
        ensures { result ≡ width self }
    {
        let code = self.code;
        (ColumnType { code }).width()
    }

    // The bytes that a length of this column takes: one or four.
    #[tactic(auto, using(crate::proofs::Laws::prefix_one, crate::proofs::Laws::prefix_four))]
    pub fn prefix_size(self) -> usize
        ensures { result ≡ prefix_size self }
    {
        if self.maximum < 256 { 1 } else { 4 }
    }

    // The bytes in front of the column's fields: those of a length, where it has one.
    #[tactic(auto, using(crate::proofs::Laws::prefix_variable, crate::proofs::Laws::prefix_plain))]
    pub fn prefix_bytes(self) -> usize
        ensures { result ≡ prefix_bytes self }
    {
        if self.is_variable() {
            self.prefix_size()
        } else {
            0
        }
    }

    // The greatest length in bytes of the column's fields.
    #[tactic(auto, using(crate::proofs::Laws::greatest_wide, crate::proofs::Laws::greatest_plain))]
    pub fn greatest(self) -> usize
        ensures { (result ≡ greatest self) × (result < 131072) }
    {
        let maximum = usize::from(self.maximum);
        if self.is_wide() { 2 * maximum } else { maximum }
    }

    // Whether a field of the column may have a length of so many bytes.
    #[tactic(auto, using(crate::proofs::Laws::length_free, crate::proofs::Laws::length_ruled))]
    pub fn length_error(self, size: usize) -> Result<(), ErrorKind>
        ensures { told_length result ≡ length_error self size }
    {
        if self.is_variable() {
            check_length(self.greatest(), self.is_wide(), size)
        } else {
            Ok(())
        }
    }
}
