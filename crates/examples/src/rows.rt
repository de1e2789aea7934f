// Examples of rows under sheet S of the paper.
use crate::head::show_error;
use adtg::rows::look_up;
use row::rows::LookUp;
use std::io;

// Prints a line for each.
pub fn run(rt: &impl Print) -> io::Result<()> {
    show_text(
        rt,
        "row under S, text of 20 bytes: ",
        b"\xC0\x05\x00\x00\x00\x14abcdefghijklmnopqrst\x2A",
    )?;
    show_text(
        rt,
        "row under S, text of 22 bytes: ",
        b"\xC0\x05\x00\x00\x00\x16abcdefghijklmnopqrstuv\x2A",
    )
}

// Column 1 of a row under S.
fn show_text(rt: &impl Print, name: &str, row: &[u8]) -> io::Result<()> {
    match look_up(b"\x03\x03\x00\x82\x01\x01\x0A\x11\x01", 0, row, 1) {
        Err(e) => show_error(rt, name, e),
        Ok(LookUp::Found(f)) => {
            println!(rt; "{name}{} to {}, prefixes {}", f.start, f.end, f.prefixes)
        }
        Ok(LookUp::Null) => println!(rt; "{name}null"),
        Ok(LookUp::Chapter) => println!(rt; "{name}chapter"),
    }
}
