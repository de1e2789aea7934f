// Examples of header and handler options.
use header::header::read_header;
use options::options::read_options;
use std::io;
use wire::error::Error;

// Prints a line for each.
pub fn run(rt: &impl Print) -> io::Result<()> {
    show_header(rt, "header, empty: ", b"")?;
    show_header(rt, "header, unicode 02: ", b"\x01\x07TG!\x01\x00\x00\x02")?;
    show_options(
        rt,
        "options of 28 bytes: ",
        b"\x02\x19\x00\xB6\x92\xF2\x3F\x04\xB2\xCF\x11\x8D\x23\x00\xAA\x00\x5F\xFE\x58\x01\x00\x00\x00\x00\x00\x00\x01\x00",
    )?;
    show_options(
        rt,
        "options, async 4: ",
        b"\x02\x19\x00\xB6\x92\xF2\x3F\x04\xB2\xCF\x11\x8D\x23\x00\xAA\x00\x5F\xFE\x58\x01\x00\x00\x00\x00\x00\x00\x04\x00",
    )
}

fn show_header(rt: &impl Print, name: &str, bytes: &[u8]) -> io::Result<()> {
    match read_header(bytes) {
        Err(e) => show_error(rt, name, e),
        Ok(h) => println!(rt;
            "{name}version {}.{}, unicode {}, ends at {}",
            h.major, h.minor, h.unicode, h.end
        ),
    }
}

fn show_options(rt: &impl Print, name: &str, bytes: &[u8]) -> io::Result<()> {
    match read_options(bytes) {
        Err(e) => show_error(rt, name, e),
        Ok(o) => {
            print!(rt; "{name}update {}", o.update)?;
            for string in [o.strings.first, o.strings.second, o.strings.third] {
                print!(rt; ", {} to {}", string.start, string.end)?;
            }
            println!(rt; ", async {}, ends at {}", o.asynchronous, o.end)
        }
    }
}

// The name of an example, and an error in the paper's form.
pub fn show_error(rt: &impl Print, name: &str, e: Error) -> io::Result<()> {
    println!(rt; "{name}refused {} at {}", e.kind.code(), e.offset)
}
