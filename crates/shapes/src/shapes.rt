// Words and forms: what is kept of a file's schemas for going over rows, made once a call.
ghost use Rattle.std.specs.Prelude.{◌≡◌, true, false, ◌+◌, ◌*◌, ◌≤◌, ◌<◌, length};
ghost use Rattle.shapes.specs.Shapes.{Added, slice_columns};
ghost use Rattle.shapes.specs.Masks.{HasRoom, SchemaAdded, Kept};

use crate::forms::form_of;
use crate::masks::{add_masks, stop_mask};
use column::packed::unpack;
use stops::stop::stop_word;
use wire::bits::map_bytes;

// How many numbers are kept of a schema before the stops.
pub const HEAD: usize = 8;

// Where the slots of schemas start in a table, and the room of a slot's two lowest parts: its first column's slot, its count of columns.
pub const SCHEMAS: usize = 256;

pub const PART: u64 = 65_536;

// The most columns of a schema, and the most numbers of all.
const MOST_COLUMNS: usize = 64;

const MOST_NUMBERS: usize = 65_535;

// The stops of original rows of these columns, from `next` on, a word and a mask each; and the form of these rows.
fn add_stops(columns: &[u64], shapes: &mut [usize], next: usize) -> usize
    requires { (length columns.now ≤ 64) × (next + 2 * length columns.now ≤ length shapes.old) × (next + 2 * length columns.now < 65536) }
    ensures { Added false (slice_columns columns.now) next shapes.old shapes.new result }
{
    let mut stops = 0;
    let mut gap = 0;
    let mut bit = 0;
    for &slot in columns {
        let column = unpack(slot as usize);
        let free = column.is_nullable();
        if column.is_stop() {
            shapes[next + 2 * stops] = stop_word(column, free, gap, bit);
            shapes[next + 2 * stops + 1] = stop_mask(free, bit);
            stops += 1;
            gap = 0;
        } else {
            gap += column.width();
        }
        bit += usize::from(free);
    }
    form_of(
        next,
        stops,
        map_bytes(bit),
        gap,
        usize::from(bit < columns.len()),
    )
}

// The stops of update data of these columns, from `next` on, likewise: every column is a stop. And the form of these data.
fn add_updates(columns: &[u64], shapes: &mut [usize], next: usize) -> usize
    requires { (length columns.now ≤ 64) × (next + 2 * length columns.now ≤ length shapes.old) × (next + 2 * length columns.now < 65536) }
    ensures { Added true (slice_columns columns.now) next shapes.old shapes.new result }
{
    for (i, &slot) in columns.iter().enumerate() {
        let column = unpack(slot as usize);
        shapes[next + 2 * i] = stop_word(column, true, 0, i);
        shapes[next + 2 * i + 1] = stop_mask(true, i);
    }
    form_of(next, columns.len(), map_bytes(columns.len()), 0, 0)
}

// What is kept of schema `k`, whose columns these are, with its stops from `next` on. No row of the top schema has update data.
fn add_schema(columns: &[u64], k: usize, shapes: &mut [usize], next: usize)
    requires { (length columns.now ≤ 64) × (8 * k + 8 ≤ next) × (next + 4 * length columns.now ≤ 65535) × (next + 4 * length columns.now ≤ length shapes.old) }
    ensures { SchemaAdded (slice_columns columns.now) k next shapes.old shapes.new }
{
    add_masks(columns, k, shapes);
    let form = add_stops(columns, shapes, next);
    shapes[HEAD * k] = form;
    if k > 0 {
        let changes = add_updates(columns, shapes, next + 2 * columns.len());
        shapes[HEAD * k + 1] = changes;
    }
}

// Whether the slots of a schema lie in the table, and its stops have room.
fn has_room(first: usize, count: usize, next: usize, room: usize) -> bool
    requires { (first < 65536) × (count < 65536) × (next ≤ 65536) }
    ensures { (result ≡ true → HasRoom first count next room) × (HasRoom first count next room → result ≡ true) }
{
    count <= MOST_COLUMNS && first + count <= SCHEMAS && next + 4 * count <= room
}

// What is kept of all schemas in a table of slots. It stops at a schema that has no room; the schemas of a file have.
pub fn keep_schemas(slots: &[u64; 512], schemas: usize, shapes: &mut [usize])
    ensures { Kept slots.now schemas shapes.old shapes.new }
{
    if SCHEMAS < schemas {
        return;
    }
    let room = shapes.len().min(MOST_NUMBERS);
    let mut next = HEAD * schemas;
    for k in 0..schemas {
        let slot = slots[SCHEMAS + k];
        let first = (slot % PART) as usize;
        let count = (slot / PART % PART) as usize;
        if !has_room(first, count, next, room) {
            return;
        }
        add_schema(&slots[first..first + count], k, shapes, next);
        next += 4 * count;
    }
}
