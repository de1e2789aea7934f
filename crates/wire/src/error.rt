// Errors (document 01's refusals): a kind, a place, and the input that the error concerns.
// The paper's number of each kind and the inputs' numbers are definitions of specs/Errors.
ghost use Rattle.std.specs.Prelude.{◌≡◌};
ghost use Rattle.wire.specs.declared.error.ErrorKind.TheVariants as kind;
ghost use Rattle.wire.specs.declared.error.Input.TheVariants as input;
ghost use Rattle.wire.specs.Errors.{code_of, input_number, Decodes};
ghost use Rattle.wire.specs.Read.{about, told};

// Why an input is refused, in the order of document 01's table.
#[derive(Clone, Copy, PartialEq, Eq)]
pub enum ErrorKind {
    Short,
    Constant,
    Value,
    OptionsSize,
    NumberForm,
    Range,
    Limit,
    RepeatedId,
    UnknownToken,
    UnknownId,
    Unpaired,
    ChapterBit,
    ForceNull,
    Length,
    Trailing,
    Capacity,
    PlanMismatch,
    Missing,
    TooLarge,
    Entry,
}

// What an error concerns. `Single` is the one input of a reader, which needs no name.
#[derive(Clone, Copy, PartialEq, Eq)]
pub enum Input {
    Single,
    Schema,
    SchemaNumber,
    Row,
    Update,
    Column,
    Section,
    Table,
    Output,
    Plan,
    Entries,
    Values,
    Place,
    Numbers,
    Order,
    Unicode,
    FirstString,
    SecondString,
    ThirdString,
    Async,
    ChildId,
    Reader,
}

// A refusal. The offset is the paper's place.
#[derive(Clone, Copy)]
pub struct Error {
    pub kind: ErrorKind,
    pub offset: usize,
    pub input: Input,
}

impl Error {
    // An error of this kind at a place of a single input.
    pub fn at(kind: ErrorKind, offset: usize) -> Error
        ensures { result ≡ record { kind = kind; offset = offset; input = input.Single } }
    {
        Error {
            kind,
            offset,
            input: Input::Single,
        }
    }

    // A single input of so many bytes ends too soon.
    pub fn short(size: usize) -> Error
        ensures { result ≡ record { kind = kind.Short; offset = size; input = input.Single } }
    {
        Error::at(ErrorKind::Short, size)
    }

    // An error about an input as a whole: its place is the start.
    pub fn at_start(reason: ErrorKind, name: Input) -> Error
        ensures { result ≡ record { kind = reason; offset = 0; input = name } }
    {
        Error::at(reason, 0).about(name)
    }

    // The same error, about this input.
    pub fn about(self, name: Input) -> Error
        ensures { result ≡ record { kind = self.kind; offset = self.offset; input = name } }
    {
        Error {
            input: name,
            ..self
        }
    }
}

// The same answer; an error is about this input.
#[tactic(auto, unfolding(crate::specs::Read::about))]
pub fn about<T>(answer: Result<T, Error>, name: Input) -> Result<T, Error>
    ensures { told result ≡ about name (told answer) }
{
    answer.map_err(|e| e.about(name))
}

impl ErrorKind {
    // Document 01's number of the kind.
    // Kept: a table, since the edit trailing_told_as_length gives two kinds one number, which an enum of numbers has no form for.
    pub fn code(self) -> u32
        ensures { result ≡ code_of self }
    {
        match self {
            ErrorKind::Short => 1,
            ErrorKind::Constant => 2,
            ErrorKind::Value => 3,
            ErrorKind::OptionsSize => 4,
            ErrorKind::NumberForm => 5,
            ErrorKind::Range => 6,
            ErrorKind::Limit => 7,
            ErrorKind::RepeatedId => 8,
            ErrorKind::UnknownToken => 9,
            ErrorKind::UnknownId => 10,
            ErrorKind::Unpaired => 11,
            ErrorKind::ChapterBit => 12,
            ErrorKind::ForceNull => 13,
            ErrorKind::Length => 14,
            ErrorKind::Trailing => 15,
            ErrorKind::Capacity => 16,
            ErrorKind::PlanMismatch => 17,
            ErrorKind::Missing => 18,
            ErrorKind::TooLarge => 19,
            ErrorKind::Entry => 20,
        }
    }
}

// A number that no kind has.
#[derive(Clone, Copy, PartialEq, Eq)]
pub struct UnknownCode(pub u32);

// The kind with a number of document 01.
impl TryFrom<u32> for ErrorKind {
    type Error = UnknownCode;

    ghost try_from_gives = { Decodes };

    fn try_from(code: u32) -> Result<Self, UnknownCode> {
        match code {
            1 => Ok(ErrorKind::Short),
            2 => Ok(ErrorKind::Constant),
            3 => Ok(ErrorKind::Value),
            4 => Ok(ErrorKind::OptionsSize),
            5 => Ok(ErrorKind::NumberForm),
            6 => Ok(ErrorKind::Range),
            7 => Ok(ErrorKind::Limit),
            8 => Ok(ErrorKind::RepeatedId),
            9 => Ok(ErrorKind::UnknownToken),
            10 => Ok(ErrorKind::UnknownId),
            11 => Ok(ErrorKind::Unpaired),
            12 => Ok(ErrorKind::ChapterBit),
            13 => Ok(ErrorKind::ForceNull),
            14 => Ok(ErrorKind::Length),
            15 => Ok(ErrorKind::Trailing),
            16 => Ok(ErrorKind::Capacity),
            17 => Ok(ErrorKind::PlanMismatch),
            18 => Ok(ErrorKind::Missing),
            19 => Ok(ErrorKind::TooLarge),
            20 => Ok(ErrorKind::Entry),
            _ => Err(UnknownCode(code)),
        }
    }
}

impl Input {
    // The number by which the C interface names the input.
    // Kept: a table, since the edit row_named_as_update gives two inputs one number, which an enum of numbers has no form for.
    pub fn number(self) -> u64
        ensures { result ≡ input_number self }
    {
        match self {
            Input::Single => 0,
            Input::Schema => 1,
            Input::SchemaNumber => 2,
            Input::Row => 3,
            Input::Update => 4,
            Input::Column => 5,
            Input::Section => 6,
            Input::Table => 7,
            Input::Output => 8,
            Input::Plan => 9,
            Input::Entries => 10,
            Input::Values => 11,
            Input::Place => 12,
            Input::Numbers => 13,
            Input::Order => 14,
            Input::Unicode => 15,
            Input::FirstString => 16,
            Input::SecondString => 17,
            Input::ThirdString => 18,
            Input::Async => 19,
            Input::ChildId => 20,
            Input::Reader => 21,
        }
    }
}
