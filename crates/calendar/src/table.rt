// The weekdays of the tenths, from January 2021 to December 2050.
ghost use Rattle.std.specs.Prelude.{◌≡◌};
ghost use Rattle.rules.specs.Calendar;

use rules::dates::{MONTHS, TENTHS_FROM, TENTHS_TO, TENTHS_YEARS};

// The table: 360 numbers, a year on a row, its months from January on (02, d, 1; 01, Forms, 6).
const TABLE: [[u8; MONTHS]; TENTHS_YEARS] = [
    [7, 3, 3, 6, 1, 4, 6, 2, 5, 7, 3, 5],
    [1, 4, 4, 7, 2, 5, 7, 3, 6, 1, 4, 6],
    [2, 5, 5, 1, 3, 6, 1, 4, 7, 2, 5, 7],
    [3, 6, 7, 3, 5, 1, 3, 6, 2, 4, 7, 2],
    [5, 1, 1, 4, 6, 2, 4, 7, 3, 5, 1, 3],
    [6, 2, 2, 5, 7, 3, 5, 1, 4, 6, 2, 4],
    [7, 3, 3, 6, 1, 4, 6, 2, 5, 7, 3, 5],
    [1, 4, 5, 1, 3, 6, 1, 4, 7, 2, 5, 7],
    [3, 6, 6, 2, 4, 7, 2, 5, 1, 3, 6, 1],
    [4, 7, 7, 3, 5, 1, 3, 6, 2, 4, 7, 2],
    [5, 1, 1, 4, 6, 2, 4, 7, 3, 5, 1, 3],
    [6, 2, 3, 6, 1, 4, 6, 2, 5, 7, 3, 5],
    [1, 4, 4, 7, 2, 5, 7, 3, 6, 1, 4, 6],
    [2, 5, 5, 1, 3, 6, 1, 4, 7, 2, 5, 7],
    [3, 6, 6, 2, 4, 7, 2, 5, 1, 3, 6, 1],
    [4, 7, 1, 4, 6, 2, 4, 7, 3, 5, 1, 3],
    [6, 2, 2, 5, 7, 3, 5, 1, 4, 6, 2, 4],
    [7, 3, 3, 6, 1, 4, 6, 2, 5, 7, 3, 5],
    [1, 4, 4, 7, 2, 5, 7, 3, 6, 1, 4, 6],
    [2, 5, 6, 2, 4, 7, 2, 5, 1, 3, 6, 1],
    [4, 7, 7, 3, 5, 1, 3, 6, 2, 4, 7, 2],
    [5, 1, 1, 4, 6, 2, 4, 7, 3, 5, 1, 3],
    [6, 2, 2, 5, 7, 3, 5, 1, 4, 6, 2, 4],
    [7, 3, 4, 7, 2, 5, 7, 3, 6, 1, 4, 6],
    [2, 5, 5, 1, 3, 6, 1, 4, 7, 2, 5, 7],
    [3, 6, 6, 2, 4, 7, 2, 5, 1, 3, 6, 1],
    [4, 7, 7, 3, 5, 1, 3, 6, 2, 4, 7, 2],
    [5, 1, 2, 5, 7, 3, 5, 1, 4, 6, 2, 4],
    [7, 3, 3, 6, 1, 4, 6, 2, 5, 7, 3, 5],
    [1, 4, 4, 7, 2, 5, 7, 3, 6, 1, 4, 6],
];

// The whole table (02, d, 1; 01, Forms, 6).
pub fn tenths() -> [[u8; MONTHS]; TENTHS_YEARS]
    ensures { result ≡ Calendar.tenths }
{
    TABLE
}

// Whether a month is one of the table's thirty years (02, d, 1; 02, e, 5).
pub fn in_thirty_years(year: u32, month: u32) -> bool
    ensures { result ≡ Calendar.in_thirty_years year month }
{
    let in_years = (TENTHS_FROM..=TENTHS_TO).contains(&year);
    in_years & (1..=MONTHS as u32).contains(&month)
}

// The table's entry by year and month, 0 where it has none (02, d, 1). It is no Option: the clause has the 0.
pub fn tenth(year: u32, month: u32) -> u8
    ensures { result ≡ Calendar.tenth year month }
{
    if !in_thirty_years(year, month) {
        return 0;
    }
    let row = (year - TENTHS_FROM) as usize;
    let from_one = month as usize;
    let column = from_one - 1;
    let table = tenths();
    table[row][column]
}
