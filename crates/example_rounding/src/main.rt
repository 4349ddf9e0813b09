// The starred K and V of document 01, worked out as the desk would (01, Checked, 1 and 2; 02, c, 2). A row has what K or V is made from, the quotient, the
// remainder, its case in words, and the result.
#![tactic(auto)]

use rules::limits::FACTOR_UNIT;
use rules::rounding::Case;
use std::io;
use std::io::Print;
use value::{rounding, signed};

fn case_in_words(rt: &impl Print, case: Case) -> io::Result<()> {
    match case {
        Case::BelowHalf => rt.write_all(b" below half "),
        Case::AtHalf => rt.write_all(b" at half "),
        Case::AboveHalf => rt.write_all(b" above half "),
    }
}

// n by d, made from two numbers, and what it is rounded to.
fn row(rt: &impl Print, first: u32, second: u32, n: u64, d: u64, res: u64) -> io::Result<()> {
    let division = rounding::divided(n, d);
    let quotient = division.quotient;
    let remainder = division.remainder;
    let case = rounding::case_of(remainder, d);
    print!(rt; "{first} {second} quotient {quotient} remainder {remainder}")?;
    case_in_words(rt, case)?;
    println!(rt; "{res}")
}

// The row of a K.
fn factor_row(rt: &impl Print, w: u32, r: u32) -> io::Result<()> {
    let n = FACTOR_UNIT * (w as u64);
    row(rt, w, r, n, r as u64, value::factor(w, r))
}

// The row of a V.
fn value_row(rt: &impl Print, price: u32, k: u32) -> io::Result<()> {
    let n = value::multiplied(price, k);
    let v = value::value(k, price);
    row(rt, price, k, n, FACTOR_UNIT, signed::size(v.0))
}

fn factor_rows(rt: &impl Print) -> io::Result<()> {
    factor_row(rt, 1, 3)?;
    factor_row(rt, 2, 3)?;
    factor_row(rt, 1, 200_000)?;
    factor_row(rt, 1, 200_001)
}

fn value_rows(rt: &impl Print) -> io::Result<()> {
    value_row(rt, 10_000_000, 33_333)?;
    value_row(rt, 49_999, 1)?;
    value_row(rt, 50_000, 1)?;
    value_row(rt, 150_000, 1)
}

fn main(rt: HostRuntime) -> io::Result<()> {
    rt.write_all(b"W and R, then K\n")?;
    factor_rows(&rt)?;
    rt.write_all(b"price and K, then V\n")?;
    value_rows(&rt)
}
