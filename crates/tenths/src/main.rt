// Prints the weekdays of the tenths from 2021 to 2050, a year on a row, each worked out by the calendar's rule and none read from the table
// (02, d, 3).
#![tactic(auto)]

ghost use Rattle.std.specs.Prelude.{◌≡◌};
ghost use Rattle.rules.specs.Calendar;

use std::io;

mod rows;

// Twelve numbers of one digit, each with the byte after it, in thirty rows.
const TEXT_BYTES: usize = 720;

// The whole text. It is that of the table in the source, since `calendar::table::tenths` is bound by the same definition (02, d, 3).
fn printed() -> [u8; TEXT_BYTES]
    ensures { result ≡ Calendar.table_rows Calendar.tenths }
{
    let mut text = [0; TEXT_BYTES];
    rows::years(&mut text);
    text
}

fn main(rt: HostRuntime) -> io::Result<()> {
    let text = printed();
    program_io::write_output(&rt, &text)
}
