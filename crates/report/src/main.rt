// Reads a keyed sheet from standard input, checks it as the controller will, and prints what it found.
#![tactic(auto)]

mod input;
mod records;
mod report;
mod summary;

use crate::report::Report;
use std::io;

fn main(rt: HostRuntime) -> io::Result<()> {
    let file = input::read(&rt)?;
    Report::new(&rt, file.as_slice()).print()
}
