// Turns the event file on standard input by column and prints it; with the argument `back` it turns a file by column back (02, l, 3 and 4).
#![tactic(auto)]

ghost use Rattle.std.specs.Prelude.{◌≡◌, ◌≤◌, length, cond};
ghost use Rattle.rules.specs.Answers.{number_in};
ghost use Rattle.rules.specs.Columns.{turn_number, turn_written, turn_back_written, turn_printed};
ghost use Rattle.listing.specs.Laid.{Laid};

use program_io::INPUT_BYTES;
use rules::refusal::Refusal;
use std::io;
use way::Way;

mod way;

// The call that is asked for.
fn turned(back: bool, file: &[u8], lent: &mut [u8]) -> Result<(), Refusal>
    ensures value { number_in result ≡ turn_number (length file.now) (length lent.old) }
    ensures lent_after { lent.new ≡ cond back (turn_back_written file.now lent.old) (turn_written file.now lent.old) }
{
    if back {
        return file_columns::turn_back(file, lent);
    }
    file_columns::turn(file, lent)
}

// What is printed for a file, written from the start of a buffer. It answers how many bytes were written (02, l, 3 and 4).
fn printed(back: bool, file: &[u8], out: &mut [u8]) -> usize
    requires { (length file.now ≤ length out.old) × (11 ≤ length out.old) }
    ensures { Laid out.old 0 (turn_printed back file.now) out.new result }
{
    let length = file.len();
    match turned(back, file, &mut out[..length]) {
        Ok(()) => length,
        Err(refusal) => {
            let number = listing::number_of(refusal);
            listing::refusal(number, out, 0)
        }
    }
}

fn print(rt: &impl Print, back: bool, file: &[u8]) -> io::Result<()>
    requires { length file.now ≤ 64_617 }
{
    let mut out = [0; INPUT_BYTES];
    let count = printed(back, file, &mut out);
    program_io::write_output(rt, &out[..count])
}

fn run(rt: &HostRuntime, back: bool) -> io::Result<()> {
    let mut file = [0; INPUT_BYTES];
    let count = program_io::read_input(&mut rt.stdin(), &mut file)?;
    print(rt, back, &file[..count])
}

fn main(rt: HostRuntime) -> io::Result<()> {
    let mut word = [0; 4];
    let given = program_io::word_count(&rt, 3);
    let length = program_io::word(&rt, 1, &mut word);
    match way::asked(given, &word[..length]) {
        Way::Forth => run(&rt, false),
        Way::Back => run(&rt, true),
        Way::Unknown => eprintln!(rt; "columns: the only argument is back"),
    }
}
