// What is printed for a row, written into a buffer from a place on. Each function answers the next place.
ghost use Rattle.std.specs.Prelude.{◌+◌, ◌≤◌, length};
ghost use Rattle.rules.specs.Answers.{numbered};
ghost use Rattle.listing.specs.Laid.{Laid};
ghost use Rattle.lastday.specs.Rows.{answer_row, bad_row, row_answer};

use crate::fields;
use crate::fields::{NUMBERS_MOST, ROW_BYTES};
use listing::text;
use listing::text::LINE_END;
use rules::dates::Date;
use rules::refusal::Refusal;

// For a row that is not read.
fn bad(out: &mut [u8], at: usize) -> usize
    requires { at + 8 ≤ length out.old }
    ensures { Laid out.old at bad_row out.new result }
{
    text::word(b"bad row", LINE_END, out, at)
}

// For an answer: its date as one number, or its refusal (02, e, 2 and 5).
fn answered(answer: Result<Date, Refusal>, out: &mut [u8], at: usize) -> usize
    requires { at + length (answer_row (numbered answer)) ≤ length out.old }
    ensures { Laid out.old at (answer_row (numbered answer)) out.new result }
{
    match answer {
        Ok(date) => {
            let number = trading_day::numbered::number_of(date);
            text::number(number, LINE_END, out, at)
        }
        Err(refusal) => {
            let number = listing::number_of(refusal);
            listing::refusal(number, out, at)
        }
    }
}

// For a row, at most 11 bytes (02, e, 2 and 5).
pub fn answer_to(row: &[u8], out: &mut [u8], at: usize) -> usize
    requires { at + 11 ≤ length out.old }
    ensures { Laid out.old at (row_answer row.now) out.new result }
{
    if ROW_BYTES < row.len() {
        return bad(out, at);
    }
    let mut numbers = [0; NUMBERS_MOST];
    let Some(count) = fields::read(row, &mut numbers) else {
        return bad(out, at);
    };
    if count < 2 {
        return bad(out, at);
    }
    let year = numbers[0];
    let month = numbers[1];
    let answer = trading_day::last_day(year, month, &numbers[2..count]);
    answered(answer, out, at)
}
