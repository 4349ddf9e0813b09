// The search for a trading day: one walk over the days, and one over the closed dates beside it.
ghost use Rattle.std.specs.Prelude.{◌≡◌, ◌≤◌, ◌||◌, true, drop};
ghost use Rattle.rules.specs.Words.{ascending};
ghost use Rattle.rules.specs.Calendar;
ghost use Rattle.rules.specs.LastTradingDay.{weekend, first_trading};
ghost use Rattle.trading_day.specs.Walk.{starts_with};

use crate::{closed, numbered};
use calendar::dates;
use rules::dates::{DAYS_SEARCHED, Date, SATURDAY, SUNDAY};

// Whether a day is a Saturday, a Sunday or the closed date at a place (02, e, 2).
fn shut(weekday: u8, closed: &[u32], at: usize, number: u64) -> bool
    ensures { result ≡ (weekend weekday || starts_with number (drop at closed.now)) }
{
    let weekend = (weekday == SATURDAY) | (weekday == SUNDAY);
    weekend | closed::stands_at(closed, at, number)
}

// The first trading day from a date on; no closed date is looked at again once it is passed (02, e, 2 and 4).
pub fn first_trading(start: Date, closed: &[u32]) -> Date
    requires { (Calendar.dated start ≡ true) × (start.year ≤ 2050) × (ascending closed.now ≡ true) }
    ensures { result ≡ first_trading 91 closed.now start }
{
    let mut date = start;
    let mut weekday = calendar::weekday(start);
    let mut at = 0;
    for _ in 0..DAYS_SEARCHED {
        let number = numbered::number_of(date);
        at = closed::passed(closed, at, number);
        if !shut(weekday, closed, at, number) {
            return date;
        }
        date = dates::next_day(date);
        weekday = dates::next_weekday(weekday);
    }
    date
}
