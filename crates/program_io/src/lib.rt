// The input and the output of a program. What the system reads or writes is beyond a contract; how many bytes of a buffer are meant is not.
#![tactic(auto)]

ghost use Rattle.std.specs.Prelude.{◌≤◌, IfOk};
ghost use Rattle.io.specs.Counts.{IsPrefixLen};

use rules::limits::{EVENT_BYTES, EVENTS_MOST, SIZES_BYTES};
use std::env::{Env, FillError};
use std::io;
use std::io::{Print, Read};

// One byte more than the longest event file has: whatever comes after these, the file is refused with 25 (01, Reading, 1).
pub const INPUT_BYTES: usize = SIZES_BYTES + EVENT_BYTES * EVENTS_MOST + 1;

// Reads once what there is of the input: how many bytes stand at the start of the buffer, 0 where it has ended. A failure is no end of the input.
pub fn read_some<R: Read>(input: &mut R, buffer: &mut [u8]) -> io::Result<usize>
    ensures { IfOk result (λ count. IsPrefixLen count buffer.new) }
{
    input.read(buffer)
}

// Reads the input until it ends or the buffer is full. It is no `read_to_end`, which needs a heap; each turn reads as much as there is, so it is no count.
pub fn read_input<R: Read>(input: &mut R, buffer: &mut [u8]) -> io::Result<usize>
    ensures { IfOk result (λ count. IsPrefixLen count buffer.new) }
{
    let mut count = 0;
    while count < buffer.len() {
        let more = read_some(input, &mut buffer[count..])?;
        if more == 0 {
            break;
        }
        count += more;
    }
    Ok(count)
}

// How many words the program was given, its own name the first of them, counted no further than `most`.
pub fn word_count<E: Env>(env: &E, most: usize) -> usize
    ensures { result ≤ most }
{
    for i in 0..most {
        if matches!(env.arg(i, &mut []), Err(FillError::NotPresent)) {
            return i;
        }
    }
    most
}

// Puts a word that the program was given at the start of a buffer: how long it is, 0 where there is none or it is longer than the buffer: either means no section, as an empty word does.
pub fn word<E: Env>(env: &E, i: usize, buffer: &mut [u8]) -> usize
    ensures { IsPrefixLen result buffer.new }
{
    match env.arg(i, buffer) {
        Ok(length) => length,
        Err(_) => 0,
    }
}

// Writes all bytes to the output, or fails.
pub fn write_output<P: Print>(output: &P, bytes: &[u8]) -> io::Result<()> {
    output.write_all(bytes)
}
