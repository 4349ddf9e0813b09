// Dates as numbers, 20210510 for 10 May 2021.
ghost use Rattle.std.specs.Prelude.{◌≡◌};
ghost use Rattle.rules.specs.LastTradingDay.{number_of_date, date_of_number};

use rules::dates::Date;

// The number of a date (02, e, 2).
#[tactic(auto, unfolding(rules::specs::LastTradingDay::number_of_date))]
pub fn number_of(date: Date) -> u64
    ensures { result ≡ number_of_date date }
{
    let year = u64::from(date.year);
    let month = u64::from(date.month);
    let day = u64::from(date.day);
    year * 10_000 + month * 100 + day
}

// The date that a number stands for (02, e, 2).
#[tactic(auto, unfolding(rules::specs::LastTradingDay::date_of_number))]
pub fn date_of(number: u32) -> Date
    ensures { result ≡ date_of_number number }
{
    Date {
        year: number / 10_000,
        month: number / 100 % 100,
        day: number % 100,
    }
}
