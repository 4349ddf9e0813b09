// A quotient rounded to a whole number, as the desk works it out (01, Value, 4; 02, c, 2).
ghost use Rattle.std.specs.Prelude.{◌≡◌, cond, leb};
ghost use Rattle.rules.specs.Value;

use crate::row::Rows;
use rules::limits::{FACTOR_MOST, FACTOR_UNIT};
use rules::rounding::Case;
use std::io;
use std::io::Print;
use value::rounding;

// The product of two numbers, by a divisor: its quotient, its remainder, the case of it and the result.
fn divided(rows: &Rows<impl Print>, first: u64, second: u64, n: u64, d: u64) -> io::Result<()> {
    let division = rounding::divided(n, d);
    let quotient = division.quotient;
    let remainder = division.remainder;
    let case = rounding::case_of(remainder, d);
    let result = rounding::rounded(n, d);
    let numbers = [first, second, d, quotient, remainder, result];
    match case {
        Case::BelowHalf => rows.say(
            b"    #*#/#: quotient #, remainder #, below half: #\n",
            &numbers,
        ),
        Case::AtHalf => rows.say(
            b"    #*#/#: quotient #, remainder #, at half, so up: #\n",
            &numbers,
        ),
        Case::AboveHalf => rows.say(
            b"    #*#/#: quotient #, remainder #, above half, so up: #\n",
            &numbers,
        ),
    }
}

// K; with an R of 0 there is none (01, Value, 2).
pub fn factor(rows: &Rows<impl Print>, w: u32, r: u32) -> io::Result<()> {
    if r == 0 {
        return rows.words(b"    R is 0, and there is no K\n");
    }
    let n = FACTOR_UNIT * (w as u64);
    divided(rows, FACTOR_UNIT, w as u64, n, r as u64)
}

// V of a price (01, Value, 3).
pub fn value(rows: &Rows<impl Print>, k: u32, price: u32) -> io::Result<()> {
    let n = value::multiplied(price, k);
    divided(rows, price as u64, k as u64, n, FACTOR_UNIT)
}

// K of W and R, 0 where it is beyond its limit (01, Opening, 1).
pub fn factor_of(w: u32, r: u32) -> u32
    ensures { result ≡ cond (leb (Value.factor w r) 10_000_000) (Value.factor w r) 0 }
{
    let k = value::factor(w, r);
    if k <= FACTOR_MOST { k as u32 } else { 0 }
}
