// The rows of the table, written into a buffer from a place on.
ghost use Rattle.std.specs.Prelude.{◌≡◌, ◌≤◌, ◌<◌, ◌+◌, length};
ghost use Rattle.rules.specs.Words.{over};
ghost use Rattle.rules.specs.Calendar.{tenths, table_rows};
ghost use Rattle.listing.specs.Laid.{Laid};
ghost use Rattle.tenths.specs.Texts.{year_row, number_end, number_field};

use listing::text;
use listing::text::{LINE_END, SPACE};
use rules::dates::{Date, MONTHS, TENTHS_FROM, TENTHS_YEARS};

// What comes after number i of a row (02, d, 3).
fn number_end(i: usize) -> u8
    ensures { result ≡ number_end i }
{
    if i == MONTHS - 1 { LINE_END } else { SPACE }
}

// Number i of a year's row, by the rule, and what comes after it (02, d, 3).
fn number(year: u32, i: usize, out: &mut [u8], at: usize) -> usize
    requires { (i < 12) × (at + 2 ≤ length out.old) }
    ensures { Laid out.old at (number_field year i) out.new result }
{
    let month = i as u32 + 1;
    let weekday = calendar::weekday(Date {
        year,
        month,
        day: 10,
    });
    text::number(u64::from(weekday), number_end(i), out, at)
}

// A year's row (02, d, 3).
fn year_row(year: u32, out: &mut [u8], at: usize) -> usize
    requires { at + length (year_row year) ≤ length out.old }
    ensures { Laid out.old at (year_row year) out.new result }
{
    let mut next = at;
    for i in 0..MONTHS {
        next = number(year, i, out, next);
    }
    next
}

// The rows of all years, from the buffer's start on; later bytes remain (02, d, 3).
pub fn years(out: &mut [u8])
    requires { length (table_rows tenths) ≤ length out.old }
    ensures { out.new ≡ over (table_rows tenths) out.old }
{
    let mut next = 0;
    for i in 0..TENTHS_YEARS {
        let year = TENTHS_FROM + i as u32;
        next = year_row(year, out, next);
    }
}
