// The column types: their codes, and what each says of a field.
ghost use Rattle.std.specs.Prelude.{◌≡◌};
ghost use Rattle.column.specs.Types.{kind_of, width_of};

// What a field of a type looks like: so many bytes; bytes or text with a length; wide text with a length; none.
#[derive(Clone, Copy, PartialEq, Eq)]
pub enum Kind {
    Fixed(usize),
    Variable,
    Wide,
    Chapter,
    Unknown,
}

// A column type, by its code.
// Kept: associated constants, which the project's scope names; a byte that is none of them is a code too.
#[derive(Clone, Copy)]
pub struct ColumnType {
    pub code: u8,
}

impl ColumnType {
    pub const I2: u8 = 0x02;

    pub const I4: u8 = 0x03;

    pub const R4: u8 = 0x04;

    pub const R8: u8 = 0x05;

    pub const CY: u8 = 0x06;

    pub const DATE: u8 = 0x07;

    pub const ERROR: u8 = 0x0A;

    pub const BOOL: u8 = 0x0B;

    pub const DECIMAL: u8 = 0x0E;

    pub const I1: u8 = 0x10;

    pub const UI1: u8 = 0x11;

    pub const UI2: u8 = 0x12;

    pub const UI4: u8 = 0x13;

    pub const I8: u8 = 0x14;

    pub const UI8: u8 = 0x15;

    pub const GUID: u8 = 0x48;

    pub const BYTES: u8 = 0x80;

    pub const STR: u8 = 0x81;

    pub const WSTR: u8 = 0x82;

    pub const DBDATE: u8 = 0x85;

    pub const DBTIME: u8 = 0x86;

    pub const CHAPTER: u8 = 0x88;

    // What a field of the type looks like, with the width of a fixed one. The codes stand close together in each of two lists, so that
    // each is compiled to a table and not to jumps.
    #[tactic(auto, unfolding(crate::specs::Types::kind_of, crate::specs::Types::kind_in, crate::specs::Types::types))]
    pub fn kind(self) -> Kind
        ensures { result ≡ kind_of self.code }
    {
        let code = self.code;
        if code < Self::GUID {
            match code {
                Self::I2 => Kind::Fixed(2),
                Self::I4 => Kind::Fixed(4),
                Self::R4 => Kind::Fixed(4),
                Self::R8 => Kind::Fixed(8),
                Self::CY => Kind::Fixed(8),
                Self::DATE => Kind::Fixed(8),
                Self::ERROR => Kind::Fixed(4),
                Self::BOOL => Kind::Fixed(2),
                Self::DECIMAL => Kind::Fixed(16),
                Self::I1 => Kind::Fixed(1),
                Self::UI1 => Kind::Fixed(1),
                Self::UI2 => Kind::Fixed(2),
                Self::UI4 => Kind::Fixed(4),
                Self::I8 => Kind::Fixed(8),
                Self::UI8 => Kind::Fixed(8),
                _ => Kind::Unknown,
            }
        } else {
            match code {
                Self::GUID => Kind::Fixed(16),
                Self::BYTES => Kind::Variable,
                Self::STR => Kind::Variable,
                Self::WSTR => Kind::Wide,
                Self::DBDATE => Kind::Fixed(6),
                Self::DBTIME => Kind::Fixed(6),
                Self::CHAPTER => Kind::Chapter,
                _ => Kind::Unknown,
            }
        }
    }

    // The width of a fixed type in bytes; 0 for every other code.
    pub fn width(self) -> usize
        ensures { result ≡ width_of (kind_of self.code) }
    {
        match self.kind() {
            Kind::Fixed(width) => width,
            _ => 0,
        }
    }
}
