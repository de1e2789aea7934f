// The table of rows: one row of it.
ghost use Rattle.std.specs.Prelude.{◌≡◌, ◌+◌, ◌*◌, ◌≤◌, ◌<◌, length};
ghost use Rattle.wire.specs.Output.{put};
ghost use Rattle.grammar.specs.Reader.{id_at};
ghost use Rattle.section.specs.Table.{row_numbers, row_of, SmallRow};
ghost use Rattle.section.specs.Sizes.{EntryAt};

use wire::integer::u32_or_zero;

// The entry of a row: its four numbers.
#[derive(Clone, Copy)]
pub(crate) struct Entry {
    // Kept: a number, as it is made of the token without a branch.
    pub(crate) kind: usize,
    pub(crate) id: usize,
    pub(crate) original: usize,
    pub(crate) update: usize,
}

// Writes row `i` into a table, where it has room for that row.
pub(crate) fn put_row(table: &mut [u32], i: usize, row: Entry)
    requires { (i ≤ 16777216) × SmallRow (row_of row) }
    ensures { table.new ≡ put table.old (4 * i) (row_numbers (row_of row)) }
{
    // Kept: `copy_into` of an array takes 70 percent more instructions for each row of a run.
    let at = 4 * i;
    if table.len() < at + 4 {
        return;
    }
    table[at] = row.kind as u32;
    table[at + 1] = row.id as u32;
    table[at + 2] = row.original as u32;
    table[at + 3] = row.update as u32;
}

// The four bytes behind the one at `at` as a number; 0 where they are not whole.
pub(crate) fn id_behind(section: &[u8], at: usize) -> usize
    requires { at ≤ 16777216 }
    ensures { (result < 4294967296) × (at + 5 ≤ length section.now → result ≡ id_at section.now at) }
{
    u32_or_zero(section, at + 1)
}

// The entry that the element at `at` makes or closes, where the data of the row before start at `origin`. No branch depends on which it is.
#[tactic(auto, using(crate::proofs::Filling::entry_is))]
pub(crate) fn entry_at(section: &[u8], at: usize, origin: usize) -> Entry
    requires { (at < length section.now) × (origin ≤ length section.now) × (length section.now ≤ 16777216) }
    ensures { EntryAt section.now at origin result }
{
    let token = usize::from(section[at]);
    let child = token / 128;
    let kind = (token % 16 + 4 * child) / 4;
    let start = at + 1 + 4 * child;
    let behind = id_behind(section, at);
    Entry {
        kind,
        id: if child == 0 { 0 } else { behind },
        original: if kind / 3 == 0 { start } else { origin },
        update: if kind % 4 / 3 == 0 { 0 } else { start },
    }
}
