// Reads the event file on standard input and prints in how many patterns of failures the section asked is delivered in full, in part and not at all; the arguments are that section
// and the sections named (02, n, 1 and 2).
#![tactic(auto)]

ghost use Rattle.std.specs.Prelude.{◌≡◌, ◌≤◌, ◌<◌, true, length};
ghost use Rattle.rules.specs.Book.{good};
ghost use Rattle.rules.specs.Failures.{failures_printed};
ghost use Rattle.failures.specs.Prints.{Resolved, row_for, Prints};

use answer::ROW_BYTES;
use method_columns::sections;
use program_io::INPUT_BYTES;
use rules::book::Book;
use rules::limits::SECTION_PLACES;
use std::env::Env;
use std::io;

mod answer;
mod words;

// The most arguments: the section asked, and others.
const WORDS_MOST: usize = 256;

// A longer word means no section.
const WORD_BYTES: usize = 4_096;

// The sections that the arguments mean, given the keys of the sections held (02, n, 1).
fn resolve<E: Env>(env: &E, keys: &[u64], meant: &mut [u8])
    requires { length keys.now ≤ 128 }
    ensures { Resolved keys.now meant.new }
{
    let mut word = [0; WORD_BYTES];
    for i in 0..meant.len() {
        let length = program_io::word(env, i + 1, &mut word);
        meant[i] = words::meant(keys, &word[..length]);
    }
}

// The call on a good book: so many arguments are resolved, the first is the section asked (02, n, 1 and 2).
fn answered<E: Env>(env: &E, b: Book, count: usize, out: &mut [u8]) -> usize
    requires { (good b ≡ true) × (0 < count) × (count ≤ 256) × (33 ≤ length out.old) }
    ensures { Prints (row_for b) count out.old out.new result }
{
    let held = b.held;
    let mut codes = [0; SECTION_PLACES];
    let mut positions = [0; SECTION_PLACES];
    let mut keys = [0; SECTION_PLACES];
    sections::fill(
        b,
        &mut codes[..held],
        &mut positions[..held],
        &mut keys[..held],
    );
    let mut meant = [0; WORDS_MOST];
    resolve(env, &keys[..held], &mut meant[..count]);
    let asked = meant[0];
    answer::printed(b, asked, &meant[1..count], out)
}

// The row for a file and so many arguments: the file's refusal, or what its book answers (02, n, 2 and 5; 01, Reading, 1).
fn printed<E: Env>(env: &E, file: &[u8], count: usize, out: &mut [u8]) -> usize
    requires { (0 < count) × (count ≤ 256) × (33 ≤ length out.old) }
    ensures { Prints (failures_printed file.now) count out.old out.new result }
{
    match file_present::present(file) {
        Ok(book) => answered(env, book, count, out),
        Err(refusal) => listing::refusal(listing::number_of(refusal), out, 0),
    }
}

fn run(rt: &HostRuntime, count: usize) -> io::Result<()>
    requires { (0 < count) × (count ≤ 256) }
{
    let mut file = [0; INPUT_BYTES];
    let length = program_io::read_input(&mut rt.stdin(), &mut file)?;
    let mut out = [0; ROW_BYTES];
    let written = printed(rt, &file[..length], count, &mut out);
    program_io::write_output(rt, &out[..written])
}

// The program's own name is the first word that it is given.
fn main(rt: HostRuntime) -> io::Result<()> {
    let given = program_io::word_count(&rt, WORDS_MOST + 2);
    if (2 <= given) & (given <= WORDS_MOST + 1) {
        return run(&rt, given - 1);
    }
    eprintln!(rt; "failures: name the section asked, then up to 255 others")
}
