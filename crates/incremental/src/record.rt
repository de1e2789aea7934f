// The record of a reader: all that is remembered between calls.
ghost use Rattle.std.specs.Prelude.{◌≡◌, [], ◌≤◌, take, length};
ghost use Rattle.wire.specs.Errors.{code_of, input_number};
ghost use Rattle.feeding.specs.Machine.{is_update};
ghost use Rattle.feeding.specs.Feeding.{first};
ghost use Rattle.incremental.specs.Record.{before_by, kind_in, held_in, map_in, fits, has_room, input_in, state_in, state_of, record_of, sixteen, numbers};
ghost use Rattle.incremental.specs.Steps.{place_in, Sane};
ghost use Rattle.incremental.specs.Parts.{before_told, kind_told, paired_as, kind_as, maps_as};

use wire::LIMIT;
use wire::error::{Error, Input};

// Stages: between elements; the id of an 87, of an 8A, of an 8C; the maps of a row; the length in front of a field; the bytes of a field; the done
// token was the last byte; a refusal that stands; a close that accepted.
// Kept: (a) the record is the C interface, and any numbers are one.
pub const BETWEEN: u32 = 0;

pub const CHILD_ID: u32 = 1;

pub const CHANGE_ID: u32 = 2;

pub const DELETE_ID: u32 = 3;

pub const MAPS: u32 = 4;

pub const PREFIX: u32 = 5;

pub const BODY: u32 = 6;

pub const FINISHED: u32 = 7;

pub const REFUSED: u32 = 8;

pub const CLOSED: u32 = 9;

// The numbers of the inputs that a refusal is about, where it is not about the record: the schema file, the section.
const SCHEMA: usize = 1;

const SECTION: usize = 6;

// So many bytes of a piece, or of the maps of a row, are kept at most.
pub const KEPT: usize = 16;

// The most columns of a schema.
const COLUMNS: usize = 64;

// What is remembered. Any numbers are a record; those that no call makes are refused.
// Kept: (a) the record is the C interface: a kind, a pair and an input are numbers in it, and arrays have their lengths beside them.
#[repr(C)]
#[derive(Clone, Copy)]
pub struct Reader {
    pub stage: u32,
    pub code: u32,
    pub kind: usize,
    pub id: usize,
    pub paired: usize,
    pub rows: usize,
    pub at: usize,
    pub more: usize,
    pub column: usize,
    pub input: usize,
    pub filled: usize,
    pub mapped: usize,
    pub held: [u8; 16],
    pub map: [u8; 16],
}

// Row data in progress, of a 07, or of an 87 or an 8A with this id.
#[derive(Clone, Copy)]
pub enum RowKind {
    Parent,
    Child(usize),
    Change(usize),
}

impl RowKind {
    // Whether they are update data.
    pub(crate) fn is_update(self) -> bool
        ensures { result ≡ is_update (kind_told self) }
    {
        matches!(self, RowKind::Change(_))
    }
}

impl Reader {
    // What row data are in progress.
    pub(crate) fn row_kind(&self) -> RowKind
        ensures { kind_told result ≡ kind_in self.now }
    {
        match self.kind {
            3 => RowKind::Change(self.id),
            2 => RowKind::Child(self.id),
            _ => RowKind::Parent,
        }
    }

    // A record that says what row data are in progress.
    pub(crate) fn of_kind(self, kind: RowKind) -> Reader
        ensures { result ≡ kind_as self (kind_told kind) }
    {
        match kind {
            RowKind::Parent => Reader {
                kind: 1,
                id: 0,
                ..self
            },
            RowKind::Child(id) => Reader {
                kind: 2,
                id,
                ..self
            },
            RowKind::Change(id) => Reader {
                kind: 3,
                id,
                ..self
            },
        }
    }

    // The id of an 87 element that stands directly before, if one does.
    pub(crate) fn before(&self) -> Option<usize>
        ensures { before_told result ≡ before_by self.now.paired self.now.id }
    {
        if self.paired == 0 {
            None
        } else {
            Some(self.id)
        }
    }

    // A record that says what stands before the next element.
    pub(crate) fn behind(self, before: Option<usize>) -> Reader
        ensures { result ≡ paired_as self (before_told before) }
    {
        match before {
            None => Reader {
                paired: 0,
                id: 0,
                ..self
            },
            Some(id) => Reader {
                paired: 1,
                id,
                ..self
            },
        }
    }

    // The bytes of a piece so far.
    pub(crate) fn piece(&self) -> &[u8]
        requires { self.now.filled ≤ 16 }
        ensures { (result.now ≡ held_in self.now) × (length result.now ≡ self.now.filled) }
    {
        &self.held[..self.filled]
    }

    // The maps of the row data in progress.
    pub(crate) fn maps(&self) -> &[u8]
        requires { self.now.mapped ≤ 16 }
        ensures { result.now ≡ map_in self.now }
    {
        &self.map[..self.mapped]
    }
}

// A record of zeros but for its stage, rows and place.
pub(crate) fn plain(stage: u32, rows: usize, at: usize) -> Reader
    ensures { result ≡ numbers stage 0 0 0 0 rows at 0 0 0 [] [] }
{
    Reader {
        stage,
        code: 0,
        kind: 0,
        id: 0,
        paired: 0,
        rows,
        at,
        more: 0,
        column: 0,
        input: 0,
        filled: 0,
        mapped: 0,
        held: [0u8; 16],
        map: [0u8; 16],
    }
}

// The record of a refusal.
pub(crate) fn refusal(e: Error) -> Reader
    ensures { result ≡ numbers 8 (code_of e.kind) 0 0 0 0 e.offset 0 0 (input_number e.input) [] [] }
{
    Reader {
        code: e.kind.code(),
        input: e.input.number() as usize,
        ..plain(REFUSED, 0, e.offset)
    }
}

// The first record.
#[tactic(auto, unfolding(crate::specs::Record::record_of))]
pub fn first_reader() -> Reader
    ensures { result ≡ record_of first }
{
    plain(BETWEEN, 0, 0)
}

// Whether the record of a piece has room for the bytes that it lacks.
fn has_room(r: &Reader) -> bool
    ensures { result ≡ has_room r.now }
{
    1 <= r.at && r.column < COLUMNS && r.filled < KEPT && r.more < KEPT - r.filled
}

// Whether a record of a state is one that calls come to.
#[tactic(auto, unfolding(crate::specs::Record::fits))]
pub(crate) fn is_fit(r: &Reader) -> bool
    ensures { result ≡ fits r.now }
{
    r.rows <= r.at
        && r.at <= LIMIT
        && r.mapped <= KEPT
        && r.column <= COLUMNS
        && (r.stage < CHILD_ID || PREFIX < r.stage || has_room(r))
}

// The input that a number of a record names.
pub(crate) fn input_in(number: usize) -> Input
    ensures { result ≡ input_in number }
{
    match number {
        SCHEMA => Input::Schema,
        SECTION => Input::Section,
        _ => Input::Reader,
    }
}

// The first `n` of sixteen bytes, and zeros.
#[tactic(auto, using(crate::proofs::RecordLaws::cleared_told))]
fn cleared(bytes: [u8; 16], n: usize) -> [u8; 16]
    requires { n ≤ 16 }
    ensures { result ≡ sixteen (take n bytes) }
{
    let mut rest = bytes;
    rest[n..].fill(0);
    rest
}

// A record with the maps of another, and the column that it has come to.
fn with_maps(r: Reader, other: &Reader) -> Reader
    requires { other.now.mapped ≤ 16 }
    ensures { result ≡ maps_as r (map_in other.now) other.now.column }
{
    Reader {
        column: other.column,
        mapped: other.mapped,
        map: cleared(other.map, other.mapped),
        ..r
    }
}

// A record of no more than the piece that is kept.
fn piece_of(r: &Reader) -> Reader
    requires { r.now.filled ≤ 16 }
    ensures { result ≡ numbers r.now.stage 0 0 0 0 r.now.rows r.now.at r.now.more 0 0 (held_in r.now) [] }
{
    Reader {
        more: r.more,
        filled: r.filled,
        held: cleared(r.held, r.filled),
        ..plain(r.stage, r.rows, r.at)
    }
}

// A record of no more than how many bytes of a field are left.
fn body_of(r: &Reader) -> Reader
    ensures { result ≡ numbers 6 0 0 0 0 r.now.rows r.now.at r.now.more 0 0 [] [] }
{
    Reader {
        more: r.more,
        ..plain(BODY, r.rows, r.at)
    }
}

// The record of the same state with zeros in all that it does not need.
#[tactic(auto, using(crate::proofs::RecordLaws::tidy_between, crate::proofs::RecordLaws::tidy_finished, crate::proofs::RecordLaws::tidy_body, crate::proofs::RecordLaws::tidy_child, crate::proofs::RecordLaws::tidy_paired, crate::proofs::RecordLaws::tidy_maps, crate::proofs::RecordLaws::tidy_prefix))]
pub(crate) fn tidy(r: &Reader) -> Reader
    requires { Sane r.now (place_in r.now) }
    ensures { result ≡ state_of (state_in r.now) }
{
    match r.stage {
        BETWEEN => plain(BETWEEN, r.rows, r.at).behind(r.before()),
        CHILD_ID => piece_of(r),
        CHANGE_ID | DELETE_ID => piece_of(r).behind(r.before()),
        MAPS => piece_of(r).of_kind(r.row_kind()),
        PREFIX => with_maps(piece_of(r).of_kind(r.row_kind()), r),
        BODY => with_maps(body_of(r).of_kind(r.row_kind()), r),
        _ => plain(FINISHED, r.rows, r.at),
    }
}
