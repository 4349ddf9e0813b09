// Dates one after the other: whether the calendar has a date, the day after it, and the weekday after a weekday.
ghost use Rattle.std.specs.Prelude.{◌≡◌, ◌<◌};
ghost use Rattle.rules.specs.Calendar;

use crate::row_of;
use rules::dates::{Date, MONTHS, SUNDAY};

// The days of a month (02, d, 4).
fn days_of_month(year: u32, month: u32) -> u32
    ensures { result ≡ Calendar.days_of_month year month }
{
    let row = row_of(year);
    let i = month.saturating_sub(1) as usize;
    row.get(i).copied().unwrap_or(0)
}

// Whether the calendar has a date (02, d, 2).
#[tactic(auto, unfolding(rules::specs::Calendar::dated))]
pub fn dated(date: Date) -> bool
    ensures { result ≡ Calendar.dated date }
{
    let days = days_of_month(date.year, date.month);
    let in_year = (1..=MONTHS as u32).contains(&date.month);
    let in_month = (1..=days).contains(&date.day);
    (1 <= date.year) & (in_year & in_month)
}

// The day after a date (02, d, 2).
#[tactic(auto, unfolding(rules::specs::Calendar::next_day))]
pub fn next_day(date: Date) -> Date
    requires { date.year < 4_294_967_295 }
    ensures { result ≡ Calendar.next_day date }
{
    let last = days_of_month(date.year, date.month);
    if date.day < last {
        let day = date.day + 1;
        return Date { day, ..date };
    }
    if date.month < MONTHS as u32 {
        let month = date.month + 1;
        return Date {
            month,
            day: 1,
            ..date
        };
    }
    let year = date.year + 1;
    Date {
        year,
        month: 1,
        day: 1,
    }
}

// The weekday after a weekday (02, d, 2).
#[tactic(auto, unfolding(rules::specs::Calendar::next_weekday))]
pub fn next_weekday(weekday: u8) -> u8
    requires { weekday < 255 }
    ensures { result ≡ Calendar.next_weekday weekday }
{
    if weekday == SUNDAY {
        return 1;
    }
    weekday + 1
}
