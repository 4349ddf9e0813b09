// Reads the event file on standard input, gives its events to the public calls, refused ones among them, and prints what each answers (01, Calls, 3; 02, b, 2 and 3).
#![tactic(auto)]

ghost use Rattle.std.specs.Prelude.{◌≡◌, length};
ghost use Rattle.calls.specs.Printing.{Printing};

use program_io::INPUT_BYTES;
use rules::book::Book;
use std::io;

// The most bytes that a step prints: nine for each event, a block of them all (02, b, 3).
const TEXT_BYTES: usize = 34_200;

// The events one after the other, each with the book handed out just before. What a step prints is written out before the next one; after a failure nothing more is.
// A step takes one event or several, and says where the next one starts: no `for` counts them.
fn print_events(
    rt: &impl Print,
    file: &[u8],
    n: usize,
    start: Book,
    out: &mut [u8],
) -> io::Result<()>
    requires { Printing file.now n 0 start × (length out.old ≡ 34_200) }
{
    let mut book = start;
    let mut place = 0;
    while place < n {
        let shown = file_calls::step(file, n, place, book, out);
        let written = shown.written;
        program_io::write_output(rt, &out[..written])?;
        place = shown.next;
        book = shown.book;
    }
    Ok(())
}

fn print(rt: &impl Print, file: &[u8]) -> io::Result<()> {
    let mut out = [0; TEXT_BYTES];
    match file_calls::opened(file, &mut out) {
        Ok(opening) => print_events(rt, file, opening.events, opening.book, &mut out),
        Err(away) => program_io::write_output(rt, &out[..away.written]),
    }
}

fn main(rt: HostRuntime) -> io::Result<()> {
    let mut file = [0; INPUT_BYTES];
    let count = program_io::read_input(&mut rt.stdin(), &mut file)?;
    print(&rt, &file[..count])
}
