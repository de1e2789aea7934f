// Runs the examples of document 01 that are not proved as theorems, and prints a line for each.
#![tactic(auto)]

mod file;
mod head;
mod rows;
mod sections;

use std::io;

fn main(rt: HostRuntime) -> io::Result<()> {
    head::run(&rt)?;
    file::run(&rt)?;
    rows::run(&rt)?;
    sections::run(&rt)
}
