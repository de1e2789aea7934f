// Examples of row sections.
use crate::head::show_error;
use section::check::check_section;
use section::list::list_section;
use std::io;

// Prints a line for each.
pub fn run(rt: &impl Print) -> io::Result<()> {
    count_rows(
        rt,
        "section under S, empty: ",
        b"\x03\x03\x00\x82\x01\x01\x0A\x11\x01",
        b"",
    )?;
    count_rows(
        rt,
        "section under T: ",
        b"\x02\x03\x00\x88\x01\x00\x07\x01\x11\x00",
        b"\x07\x05\x00\x00\x00\x87\x07\x00\x00\x00\x2A\x8A\x07\x00\x00\x00\x80\x00\x2B\x0F",
    )?;
    show_second(
        rt,
        "section under T, second row: ",
        b"\x02\x03\x00\x88\x01\x00\x07\x01\x11\x00",
        b"\x07\x05\x00\x00\x00\x87\x07\x00\x00\x00\x2A\x8A\x07\x00\x00\x00\x80\x00\x2B\x0F",
    )
}

// How many rows a section has.
fn count_rows(rt: &impl Print, name: &str, file: &[u8], section: &[u8]) -> io::Result<()> {
    match check_section(file, section) {
        Err(e) => show_error(rt, name, e),
        Ok(n) => println!(rt; "{name}{n} rows"),
    }
}

// The second of a section's two rows, as the table has it.
fn show_second(rt: &impl Print, name: &str, file: &[u8], section: &[u8]) -> io::Result<()> {
    let mut table = [0u32; 8];
    match list_section(file, section, &mut table) {
        Err(e) => show_error(rt, name, e),
        Ok(_) => {
            let [_, _, _, _, kind, child, original, update] = table;
            println!(rt;
                "{name}kind {kind}, child id {child}, original at {original}, update at {update}"
            )
        }
    }
}
