// A row of the explanation: a template filled with numbers and section codes, at most 100 columns, written out.
ghost use Rattle.std.specs.Prelude.{◌≡◌, ◌+◌, ◌≤◌, ◌<◌, cond, eqb, length};
ghost use Rattle.explain_row.specs.Amounts.{sign_of};
ghost use Rattle.explain_row.specs.Folded.{Folded};

use listing::text::{LINE_END, SPACE};
use std::io;
use std::io::Print;

// The longest template, and the most bytes that one can come to.
const ROW_BYTES: usize = 3_584;

// The most columns of a row.
const COLUMNS: usize = 100;

// Whether a number is below 0, as `~` of a template reads it.
pub fn minus(z: i64) -> u64
    ensures { result ≡ sign_of z }
{
    if z < 0 { 1 } else { 0 }
}

// The sign of what is left of a number: its own, and none where nothing is left.
pub fn minus_left(z: i64, left: u64) -> u64
    ensures { result ≡ cond (eqb left 0) 0 (sign_of z) }
{
    if left == 0 { 0 } else { minus(z) }
}

// A row that is full ends at its last blank; a byte that is no blank stays.
fn end_row(text: &mut [u8], blank: usize, full: bool)
    requires { blank < length text.old }
    ensures { Folded text.old text.new }
{
    let c = text[blank];
    if full & (c == SPACE) {
        text[blank] = LINE_END;
    }
}

// Where the row of the next byte starts, and the last blank up to it.
#[derive(Clone, Copy)]
struct Row {
    start: usize,
    blank: usize,
}

// The row once a byte at i is read.
fn after_byte(row: Row, c: u8, i: usize) -> Row
    requires { (row.start ≤ i) × (row.blank ≤ i) × (i ≤ 3_584) }
    ensures { (result.start ≤ i + 1) × (result.blank ≤ i) }
{
    match c {
        LINE_END => Row {
            start: i + 1,
            ..row
        },
        SPACE => Row { blank: i, ..row },
        _ => row,
    }
}

// Rows of more than 100 columns end at a blank.
fn fold(text: &mut [u8])
    requires { length text.old ≤ 3_584 }
    ensures { Folded text.old text.new }
{
    let mut row = Row { start: 0, blank: 0 };
    for i in 0..text.len() {
        row = after_byte(row, text[i], i);
        let full = (row.start + COLUMNS <= i) & (row.start < row.blank);
        end_row(text, row.blank, full);
        if full {
            row.start = row.blank + 1;
        }
    }
}

// Where rows are written, and the section codes end to end, which `@` of a template stands for.
#[derive(Drop)]
pub struct Rows<'a, P: Print> {
    pub rt: &'a P,
    pub names: &'a [u8],
}

impl<'a, P: Print> Rows<'a, P> {
    // A text folded and written out.
    fn folded(&self, text: &mut [u8]) -> io::Result<()>
        requires { length text.old ≤ 3_584 }
    {
        fold(text);
        self.rt.write_all(text)
    }

    // A template of at most 128 bytes, filled: `#` is the next number, `~` a minus sign where it is not 0, `@` the code of the section of that number. It is no
    // `write!`, which could find its buffer too small: what a template comes to is known to fit.
    pub fn say(&self, template: &[u8], numbers: &[u64]) -> io::Result<()>
        requires { length template.now ≤ 128 }
    {
        let mut out = [0; ROW_BYTES];
        let count = template::fill(template, numbers, self.names, &mut out, 0);
        self.folded(&mut out[..count])
    }

    // A row of words alone.
    pub fn words(&self, text: &[u8]) -> io::Result<()> {
        self.rt.write_all(text)
    }

    // With or without the seller mark.
    pub fn seller_mark(&self, seller: bool) -> io::Result<()> {
        if seller {
            return self.words(b", seller mark");
        }
        self.words(b", no seller mark")
    }
}
