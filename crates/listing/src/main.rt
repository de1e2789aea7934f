// Lists the rows of the section in `rows.bin` under the schema file in `sheet.bin`, both of the folder that it is run in.
#![tactic(auto)]

mod files;
mod lines;
mod listing;

use files::read_file;
use listing::{FILE_LIMIT, list_text};
use std::io;
use std::io::Write;

// One byte more than a file may have, so that a larger one shows.
const BUFFER: usize = FILE_LIMIT + 1;

// The numbers of a table for 1,024 rows, and the bytes of as many lines and one more.
const TABLE: usize = 4_096;

const TEXT: usize = 86_100;

fn main(rt: HostRuntime) -> io::Result<()> {
    let mut sheet = [0u8; BUFFER];
    let mut rows = [0u8; BUFFER];
    let mut table = [0u32; TABLE];
    let mut text = [0u8; TEXT];
    let size = list_text(
        read_file(&rt, "sheet.bin", &mut sheet),
        read_file(&rt, "rows.bin", &mut rows),
        &mut table,
        &mut text,
    );
    io::writer(&rt).write_all(&text[..size])
}
