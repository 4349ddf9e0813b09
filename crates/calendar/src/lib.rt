// The Gregorian calendar: the weekday of a date.
#![tactic(auto)]

ghost use Rattle.std.specs.Prelude.{◌≡◌, ◌-◌};
ghost use Rattle.rules.specs.Calendar;

use rules::dates::{Date, MONTHS};

pub mod dates;
pub mod table;

// The days of the months, a row for common years and one for leap years (02, d, 4; 01, Forms, 1).
const DAYS: [[u32; MONTHS]; 2] = [
    [31, 28, 31, 30, 31, 30, 31, 31, 30, 31, 30, 31],
    [31, 29, 31, 30, 31, 30, 31, 31, 30, 31, 30, 31],
];

// Every fourth year, not the hundredth, but the four-hundredth (02, d, 2).
#[tactic(auto, unfolding(rules::specs::Calendar::leap))]
fn leap(year: u32) -> bool
    ensures { result ≡ Calendar.leap year }
{
    let fourth = year % 4 == 0;
    let hundredth = year % 100 == 0;
    let four_hundredth = year % 400 == 0;
    fourth & (!hundredth | four_hundredth)
}

// A year's row (02, d, 4; 01, Forms, 1).
fn row_of(year: u32) -> [u32; MONTHS]
    ensures { result ≡ Calendar.row_of year }
{
    let row = leap(year) as usize;
    DAYS[row]
}

// The days of the years before one, without a walk over them: 365 for each, one more for each fourth, one less for each hundredth, one more for each
// four-hundredth (02, d, 2).
fn days_before_year(year: u32) -> u64
    ensures { result ≡ Calendar.days_before_year year }
{
    let years = u64::from(year.saturating_sub(1));
    let fourths = years / 4;
    let hundredths = years / 100;
    let four_hundredths = years / 400;
    365 * years + fourths + four_hundredths - hundredths
}

// The days of the months before one in its year (02, d, 2).
fn days_before_month(year: u32, month: u32) -> u64
    ensures { result ≡ Calendar.days_before_month year month }
{
    let row = row_of(year);
    let months = (month.saturating_sub(1) as usize).min(MONTHS);
    let first = &row[..months];
    let mut before = 0;
    for days in first {
        before += u64::from(*days);
    }
    before
}

// The number of a date (02, d, 2).
fn day_number(date: Date) -> u64
    ensures { result ≡ Calendar.day_number date }
{
    let years = days_before_year(date.year);
    let months = days_before_month(date.year, date.month);
    years + months + u64::from(date.day.saturating_sub(1))
}

// The weekday of a date, Monday 1 to Sunday 7 (02, d, 1 and 2). It is a number and no enum: the clause, and the table of tenths, have numbers.
#[tactic(auto, unfolding(rules::specs::Calendar::weekday))]
pub fn weekday(date: Date) -> u8
    ensures { result ≡ Calendar.weekday date }
{
    let left = day_number(date) % 7;
    left as u8 + 1
}
