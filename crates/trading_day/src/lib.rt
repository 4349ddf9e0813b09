// The last trading day of a contract: the first one from the 10th of its month on (02, e).
#![tactic(auto)]

ghost use Rattle.std.specs.Prelude.{◌≡◌};
ghost use Rattle.rules.specs.Answers.{number_in, numbered};
ghost use Rattle.rules.specs.LastTradingDay;

use calendar::table;
use rules::dates::{CLOSED_MOST, Date};
use rules::refusal::Refusal;

mod closed;
pub mod numbered;
mod search;

// Whether there are not too many closed dates, each is allowed, and each is below the next (02, e, 5).
fn closed_good(closed: &[u32]) -> bool
    ensures { result ≡ LastTradingDay.closed_dates_good closed.now }
{
    closed.len() <= CLOSED_MOST && closed::in_turn(closed)
}

// Why year, month or closed dates are refused (02, e, 5).
#[tactic(auto, unfolding(rules::specs::Calls::first, rules::specs::LastTradingDay::last_day_number))]
fn check(year: u32, month: u32, closed: &[u32]) -> Result<(), Refusal>
    ensures { number_in result ≡ LastTradingDay.last_day_number year month closed.now }
{
    let month_good = table::in_thirty_years(year, month);
    let dates_good = closed_good(closed);
    if !month_good {
        return Err(Refusal::BadMonth);
    }
    if !dates_good {
        return Err(Refusal::BadClosed);
    }
    Ok(())
}

// The last trading day by year, month and closed dates, or the refusal (02, e, 1 and 2 and 3 and 4 and 5).
#[tactic(auto, unfolding(rules::specs::LastTradingDay::last_day, rules::specs::LastTradingDay::last_day_answer, rules::specs::LastTradingDay::number_of_last_day, rules::specs::LastTradingDay::dates_of_last_day, rules::specs::LastTradingDay::last_day_dates))]
pub fn last_day(year: u32, month: u32, closed: &[u32]) -> Result<Date, Refusal>
    ensures value { numbered result ≡ LastTradingDay.last_day_answer year month closed.now }
    ensures result_value { LastTradingDay.number_of_last_day (numbered result) ≡ LastTradingDay.last_day_number year month closed.now }
    ensures result_value_2 { LastTradingDay.dates_of_last_day (numbered result) ≡ LastTradingDay.last_day_dates year month closed.now }
{
    check(year, month, closed)?;
    let tenth = Date {
        year,
        month,
        day: 10,
    };
    Ok(search::first_trading(tenth, closed))
}
