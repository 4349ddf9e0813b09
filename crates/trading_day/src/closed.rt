// Closed dates: which are allowed, and the walk over them beside the days.
ghost use Rattle.std.specs.Prelude.{◌≡◌, ◌≤◌, length, drop};
ghost use Rattle.rules.specs.Words.{every, ascending, ◌and◌};
ghost use Rattle.rules.specs.LastTradingDay.{closed_good};
ghost use Rattle.trading_day.specs.Walk.{Passed, starts_with};

use crate::numbered;
use calendar::dates;
use rules::dates::{CLOSED_TO, TENTHS_FROM};

// Whether a closed date is of the years allowed and in the calendar (02, e, 5).
#[tactic(auto, unfolding(rules::specs::LastTradingDay::closed_good))]
fn allowed(number: u32) -> bool
    ensures { result ≡ closed_good number }
{
    let date = numbered::date_of(number);
    (TENTHS_FROM..=CLOSED_TO).contains(&date.year) & dates::dated(date)
}

// Whether each closed date is allowed and below the next. No date is 0, so the first has to be above that, as each later one above the one before it (02, e, 5).
pub fn in_turn(closed: &[u32]) -> bool
    ensures { result ≡ (every closed_good closed.now and ascending closed.now) }
{
    let mut last = 0;
    for number in closed {
        let later = last < *number;
        if !(later & allowed(*number)) {
            return false;
        }
        last = *number;
    }
    true
}

// The first place from one on where a closed date is not below a number.
pub fn passed(closed: &[u32], from: usize, number: u64) -> usize
    requires { from ≤ length closed.now }
    ensures { Passed closed.now from number result }
{
    for at in from..closed.len() {
        let date = closed[at] as u64;
        if number <= date {
            return at;
        }
    }
    closed.len()
}

// Whether a number is the closed date at a place.
pub fn stands_at(closed: &[u32], at: usize, number: u64) -> bool
    ensures { result ≡ starts_with number (drop at closed.now) }
{
    if at < closed.len() {
        let date = closed[at] as u64;
        return number == date;
    }
    false
}
