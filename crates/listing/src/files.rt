// The files that are listed.
ghost use Rattle.std.specs.Prelude.{◌≤◌, length};

use std::fs;
use std::io::Read;
use std::rt::Files;

// Reads a file into a buffer, up to the buffer's length. What was read; nothing where the file is missing or cannot be read.
pub fn read_file<'a, R: Files>(rt: &R, name: &str, buffer: &'a mut [u8]) -> &'a [u8]
    ensures { length result.now ≤ length buffer.old }
{
    let mut size = 0;
    if let Ok(mut file) = fs::open(rt, name) {
        // Kept: each read says how much more is there, so no range does.
        while size < buffer.len() {
            match file.read(&mut buffer[size..]) {
                Ok(0) | Err(_) => break,
                Ok(n) => size += n,
            }
        }
    }
    &buffer[..size]
}
