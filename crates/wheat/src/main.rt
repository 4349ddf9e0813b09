// Reads the event file on standard input and prints its listing (01, Program, 1 and 2 and 3).
#![tactic(auto)]

use program_io::INPUT_BYTES;
use std::io;

fn print(rt: &impl Print, file: &[u8]) -> io::Result<()> {
    let listing = file_listing::printed(file);
    let bytes = listing.bytes;
    let length = listing.length;
    program_io::write_output(rt, &bytes[..length])
}

fn main(rt: HostRuntime) -> io::Result<()> {
    let mut file = [0; INPUT_BYTES];
    let count = program_io::read_input(&mut rt.stdin(), &mut file)?;
    print(&rt, &file[..count])
}
