// Examples of schema files.
use crate::head::show_error;
use questions::file::{Counts, count_file};
use std::io;

// Prints a line for each.
pub fn run(rt: &impl Print) -> io::Result<()> {
    show_counts(rt, "schema file, count 0: ", b"\x00")?;
    show_counts(
        rt,
        "schema file T: ",
        b"\x02\x03\x00\x88\x01\x00\x07\x01\x11\x00",
    )
}

fn show_counts(rt: &impl Print, name: &str, file: &[u8]) -> io::Result<()> {
    match count_file(file) {
        Err(e) => show_error(rt, name, e),
        Ok(Counts { schemas, columns }) => {
            println!(rt; "{name}{schemas} schemas, {columns} columns")
        }
    }
}
