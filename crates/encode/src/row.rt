// A row that is to be written: the sizes of its parts, and the parts one behind the other: the maps, then the fields.
ghost use Rattle.std.specs.Prelude.{◌≡◌, true, ◌*◌, ◌≤◌, length};
ghost use Rattle.wire.specs.Read.{limit};
ghost use Rattle.encode.specs.Entries.{givens_from, are_entries};

use crate::entry::{Entry, entry_at, entry_size, put_entry, stands};
use crate::map::{Bits, Map, bit_of, has_bit, put_bytes};
use column::column::Column;
use wire::bits::map_bytes;
use wire::error::{Error, ErrorKind, Input};

// Update data or an original row that is to be written: its columns, the three numbers of an entry for each of them, and the values.
#[derive(Clone, Copy)]
pub(crate) struct Row<'a> {
    pub(crate) update: bool,
    pub(crate) columns: &'a [Column],
    pub(crate) entries: &'a [u32],
    pub(crate) values: &'a [u8],
    ghost few: { length columns.now ≤ 64 },
    ghost within: { length values.now ≤ limit },
    ghost counted: { length entries.now ≡ 3 * length columns.now },
    ghost are: { are_entries values.now (givens_from (length columns.now) 0 entries.now) ≡ true },
}

impl<'a> Row<'a> {
    ghost use Rattle.std.specs.Prelude.{◌≡◌, ◌+◌, ◌≤◌, ◌<◌, length};
    ghost use Rattle.wire.specs.Read.{told};
    ghost use Rattle.wire.specs.Output.{put};
    ghost use Rattle.encode.specs.Entries.{given_at, entry_of};
    ghost use Rattle.encode.specs.Encoding.{pack, fields_of};
    ghost use Rattle.encode.specs.Writers.{writing, WroteAt};
    ghost use Rattle.encode.specs.Steps.{told_entry, stands_in, row_in, maps_in, fields_size, bits_of, Held, Laid};
    ghost use Rattle.encode.specs.Rows.{columns_of, row_entries};

    // The entry of column `i`.
    fn entry(&self, i: usize) -> Entry<'a>
        requires { i < length self.now.columns.now }
        ensures { told_entry result ≡ entry_of self.now.values.now (given_at self.now.entries.now i) }
    {
        entry_at(self.entries, self.values, i).unwrap()
    }

    // The size of the fields, where each entry can stand in its column; else the first that can't.
    fn fields_size(&self) -> Result<usize, Error>
        ensures { told result ≡ fields_size (stands_in self.now.update) (columns_of self.now) (row_entries self.now) }
    {
        let mut size = 0;
        for (i, column) in self.columns.iter().enumerate() {
            let entry = self.entry(i);
            if !stands(self.update, *column, entry) {
                return Err(Error::at(ErrorKind::Entry, i).about(Input::Entries));
            }
            size += entry_size(*column, entry);
        }
        Ok(size)
    }

    // The bits of a map.
    fn bits(&self, map: Map) -> Bits
        ensures { Held (bits_of map (columns_of self.now) (row_entries self.now)) result.bits result.count }
    {
        let mut bits = [false; 64];
        let mut count = 0;
        for (i, column) in self.columns.iter().enumerate() {
            if has_bit(map, *column) {
                bits[count] = bit_of(map, self.entry(i));
                count += 1;
            }
        }
        Bits { bits, count }
    }

    // The bytes of the maps in front of the fields.
    fn maps_size(&self) -> usize
        ensures { (result ≡ length (maps_in self.now.update (columns_of self.now) (row_entries self.now))) × (result ≤ 16) }
    {
        if self.update {
            2 * map_bytes(self.columns.len())
        } else {
            map_bytes(self.bits(Map::Presence).count)
        }
    }

    // Writes a map from `at` on, where it fits: how many bytes it has.
    fn put_map(&self, map: Map, out: &mut [u8], at: usize) -> usize
        ensures { Laid (pack (bits_of map (columns_of self.now) (row_entries self.now))) at out.old out.new result × (result ≤ 8) }
    {
        let held = self.bits(map);
        let size = map_bytes(held.count);
        put_bytes(out, at, &held.bits, size);
        size
    }

    // Writes the maps from `at` on: how many bytes they have.
    fn put_maps(&self, out: &mut [u8], at: usize) -> usize
        requires { at + length (maps_in self.now.update (columns_of self.now) (row_entries self.now)) ≤ length out.old }
        ensures { Laid (maps_in self.now.update (columns_of self.now) (row_entries self.now)) at out.old out.new result }
    {
        if self.update {
            let first = self.put_map(Map::Update, out, at);
            let second = self.put_map(Map::Force, out, at + first);
            first + second
        } else {
            self.put_map(Map::Presence, out, at)
        }
    }

    // Writes the fields from `at` on: each into the rest of the output behind the last.
    fn put_fields(&self, out: &mut [u8], at: usize)
        requires { at + length (fields_of (columns_of self.now) (row_entries self.now)) ≤ length out.old }
        ensures { out.new ≡ put out.old at (fields_of (columns_of self.now) (row_entries self.now)) }
    {
        let mut position = at;
        for (i, column) in self.columns.iter().enumerate() {
            position += put_entry(&mut out[position..], *column, self.entry(i));
        }
    }

    // Writes the row from `place` on, where each entry can stand in its column and the row fits: how many bytes it has.
    pub(crate) fn write(&self, out: &mut [u8], place: usize) -> Result<usize, Error>
        requires { place ≤ length out.old }
        ensures { WroteAt (writing (stands_in self.now.update) (row_in self.now.update) self.now.columns.now self.now.entries.now self.now.values.now (length out.old) place) place out.old out.new result }
    {
        let fields = self.fields_size()?;
        let size = self.maps_size() + fields;
        if size > out.len() - place {
            return Err(Error::at(ErrorKind::Capacity, size).about(Input::Output));
        }
        let maps = self.put_maps(out, place);
        self.put_fields(out, place + maps);
        Ok(size)
    }
}
