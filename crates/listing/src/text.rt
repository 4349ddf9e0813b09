// Texts and numbers, each with the byte that ends it, written into a buffer from a place on. Each answers the next place.
// (Buffer and place stay side by side: a struct of both asks in each contract and loop one clause more, that it still borrows the same buffer.)
ghost use Rattle.std.specs.Prelude.{◌+◌, ◌*◌, ◌≤◌, ◌<◌, [], ◌∷◌, length};
ghost use Rattle.rules.specs.Words.{decimal, signed_decimal};
ghost use Rattle.rules.specs.Listing.{row};
ghost use Rattle.listing.specs.Columns.{code_at, field};
ghost use Rattle.listing.specs.Laid.{Laid};

use crate::digits;
use value::signed;

// What parts two fields, and what ends a row (01, Program, 3).
pub const SPACE: u8 = 32;

pub const LINE_END: u8 = 10;

pub const MINUS: u8 = 45;

pub fn word(text: &[u8], end: u8, out: &mut [u8], at: usize) -> usize
    requires { at + length text.now < length out.old }
    ensures { Laid out.old at (field text.now end) out.new result }
{
    let next = at + text.len();
    out[at..next].copy_from_slice(text);
    out[next] = end;
    next + 1
}

// The code of section number i (01, Forms, 7).
pub fn code(codes: &[u8], i: usize, end: u8, out: &mut [u8], at: usize) -> usize
    requires { (7 * i + 7 ≤ length codes.now) × (at + length (code_at codes.now i) < length out.old) }
    ensures { Laid out.old at (field (code_at codes.now i) end) out.new result }
{
    let from = 7 * i;
    word(&codes[from..from + 7], end, out, at)
}

// A number in base ten, with no byte that ends it.
pub fn decimal_digits(n: u64, out: &mut [u8], at: usize) -> usize
    requires { at + length (decimal n) ≤ length out.old }
    ensures { Laid out.old at (decimal n) out.new result }
{
    let mut digits = [0; 20];
    let from = digits::laid(n, &mut digits);
    let next = at + (20 - from);
    out[at..next].copy_from_slice(&digits[from..]);
    next
}

pub fn number(n: u64, end: u8, out: &mut [u8], at: usize) -> usize
    requires { at + length (decimal n) < length out.old }
    ensures { Laid out.old at (field (decimal n) end) out.new result }
{
    let next = decimal_digits(n, out, at);
    out[next] = end;
    next + 1
}

// A row of a word and a number (01, Program, 3).
pub fn row(name: &[u8], n: u64, out: &mut [u8], at: usize) -> usize
    requires { at + length (row (name.now ∷ decimal n ∷ [])) ≤ length out.old }
    ensures { Laid out.old at (row (name.now ∷ decimal n ∷ [])) out.new result }
{
    let next = word(name, SPACE, out, at);
    number(n, LINE_END, out, next)
}

// A row of a word and two numbers (01, Program, 3). (One function over a list of numbers is longer than both: a loop, and a test for the last.)
pub fn row_of_two(name: &[u8], n: u64, m: u64, out: &mut [u8], at: usize) -> usize
    requires { at + length (row (name.now ∷ decimal n ∷ decimal m ∷ [])) ≤ length out.old }
    ensures { Laid out.old at (row (name.now ∷ decimal n ∷ decimal m ∷ [])) out.new result }
{
    let next = word(name, SPACE, out, at);
    let next = number(n, SPACE, out, next);
    number(m, LINE_END, out, next)
}

// With a minus sign where it is below 0.
pub fn whole(z: i64, end: u8, out: &mut [u8], at: usize) -> usize
    requires { at + length (signed_decimal z) < length out.old }
    ensures { Laid out.old at (field (signed_decimal z) end) out.new result }
{
    let size = signed::size(z);
    if z < 0 {
        out[at] = MINUS;
        return number(size, end, out, at + 1);
    }
    number(size, end, out, at)
}
