// Entries: what is to be written for a column, read from the caller's numbers; which can stand in a column; the bytes that they take.
ghost use Rattle.std.specs.Prelude.{◌≡◌, ◌+◌, ◌*◌, ◌≤◌, length};
ghost use Rattle.column.specs.Columns.{prefix_bytes};
ghost use Rattle.encode.specs.Entries.{null, given_at, givens_from, is_entry, are_entries};
ghost use Rattle.encode.specs.Encoding.{field_bytes, entry_bytes};
ghost use Rattle.encode.specs.Writers.{length_stands};
ghost use Rattle.encode.specs.Steps.{told_entry, ReadsEntry, stands_in, Laid};

use column::column::Column;
use wire::bytes::copy_into;

// What is to be written for a column.
#[derive(Clone, Copy)]
pub(crate) enum Entry<'a> {
    Null,
    Value(&'a [u8]),
    Unchanged,
}

// The entry of column `i`: its numbers are its kind and the two ends of a value in the values. None where they say no entry.
// Kept: numbers for the kinds, which are those of the C interface; behind this call an entry is an enum.
#[tactic(auto, unfolding(crate::specs::Entries::is_entry, crate::specs::Entries::entry_of))]
pub(crate) fn entry_at<'a>(entries: &[u32], values: &'a [u8], i: usize) -> Option<Entry<'a>>
    requires { 3 * i + 3 ≤ length entries.now }
    ensures { ReadsEntry values.now (given_at entries.now i) result }
{
    let start = entries[3 * i + 1] as usize;
    let end = entries[3 * i + 2] as usize;
    match entries[3 * i] {
        0 => Some(Entry::Null),
        1 if start <= end && end <= values.len() => Some(Entry::Value(&values[start..end])),
        2 => Some(Entry::Unchanged),
        _ => None,
    }
}

// Whether the numbers of column `i` say an entry.
#[tactic(auto, using(crate::proofs::Reading::reads_is))]
fn is_entry(entries: &[u32], values: &[u8], i: usize) -> bool
    requires { 3 * i + 3 ≤ length entries.now }
    ensures { result ≡ is_entry values.now (given_at entries.now i) }
{
    entry_at(entries, values, i).is_some()
}

// Whether the numbers of each of the first `n` columns say one.
// Kept: a loop, since `all` over the range leaves its answer unproved.
#[tactic(auto, using(crate::proofs::Arrays::entries_all, crate::proofs::Arrays::entries_lack))]
pub(crate) fn are_entries(entries: &[u32], values: &[u8], n: usize) -> bool
    requires { 3 * n ≤ length entries.now }
    ensures { result ≡ are_entries values.now (givens_from n 0 entries.now) }
{
    for i in 0..n {
        if !is_entry(entries, values, i) {
            return false;
        }
    }
    true
}

// Whether a value of `n` bytes can stand in a column.
#[tactic(auto, using(column::proofs::Laws::prefix_else), unfolding(crate::specs::Writers::length_stands))]
fn length_stands(column: Column, n: usize) -> bool
    ensures { result ≡ length_stands column n }
{
    if column.is_chapter() {
        false
    } else if column.is_variable() {
        match column.prefix_size() {
            1 => column.length_error(n).is_ok() && n < 256,
            _ => column.length_error(n).is_ok() && n < 4_294_967_296,
        }
    } else {
        n == column.width()
    }
}

// Whether null can stand in a column, of update data or of an original row.
#[tactic(auto, unfolding(crate::specs::Writers::in_original, crate::specs::Writers::in_update))]
fn null_stands(update: bool, column: Column) -> bool
    ensures { result ≡ stands_in update column null }
{
    if column.is_chapter() {
        !update
    } else {
        column.is_nullable()
    }
}

// Whether an entry can stand in a column, of update data or of an original row.
#[tactic(auto, unfolding(crate::specs::Writers::in_original, crate::specs::Writers::in_update))]
pub(crate) fn stands(update: bool, column: Column, given: Entry) -> bool
    ensures { result ≡ stands_in update column (told_entry given.entry) }
{
    match given {
        Entry::Null => null_stands(update, column),
        Entry::Value(value) => length_stands(column, value.len()),
        Entry::Unchanged => update,
    }
}

// The bytes that an entry takes in a column.
#[tactic(auto, using(crate::proofs::Laws::length_field, crate::proofs::Laws::prefix_few))]
pub(crate) fn entry_size(column: Column, given: Entry) -> usize
    ensures { result ≡ length (entry_bytes column (told_entry given.entry)) }
{
    match given {
        Entry::Value(value) => column.prefix_bytes() + value.len(),
        Entry::Null | Entry::Unchanged => 0,
    }
}

// Writes the field of a value at the start of an output: how many bytes it has.
#[tactic(auto, using(crate::proofs::Laws::prefix_few, crate::proofs::Laws::length_bytes, crate::proofs::Laws::length_field, crate::proofs::Laws::field_laid))]
fn put_field(out: &mut [u8], column: Column, value: &[u8]) -> usize
    requires { length (field_bytes column value.now) ≤ length out.old }
    ensures { Laid (field_bytes column value.now) 0 out.old out.new result }
{
    let prefix = column.prefix_bytes();
    let length = value.len().to_le_bytes();
    copy_into(out, 0, &length[..prefix]);
    copy_into(out, prefix, value);
    prefix + value.len()
}

// Writes the field of an entry, where it is a value, at the start of an output: how many bytes it has.
#[tactic(auto, using(crate::proofs::Laws::put_none))]
pub(crate) fn put_entry(out: &mut [u8], column: Column, given: Entry) -> usize
    requires { length (entry_bytes column (told_entry given)) ≤ length out.old }
    ensures { Laid (entry_bytes column (told_entry given.entry)) 0 out.old out.new result }
{
    match given {
        Entry::Value(value) => put_field(out, column, value),
        Entry::Null | Entry::Unchanged => 0,
    }
}
