// The numbers of a row: its fields in base ten, parted by one space.
ghost use Rattle.std.specs.Prelude.{◌≡◌, ◌≤◌, length, false, MatchOption};
ghost use Rattle.rules.specs.Words.{every, is_number};
ghost use Rattle.lastday.specs.Rows.{fields_of};
ghost use Rattle.lastday.specs.Fields.{NumbersRead};

use listing::text::SPACE;

// A row of so many bytes has at most so many numbers.
pub const ROW_BYTES: usize = 4_096;

pub const NUMBERS_MOST: usize = 2_048;

// The numbers of a row, written into a list from its start on: how many they are, none where a field is no number.
pub fn read(row: &[u8], numbers: &mut [u32]) -> Option<usize>
    requires { (length row.now ≤ 4_096) × (length numbers.old ≡ 2_048) }
    ensures { MatchOption result (every is_number (fields_of row.now) ≡ false) (NumbersRead row.now numbers.new) }
{
    let mut count = 0;
    for field in row.split(|b| *b == SPACE) {
        numbers[count] = program_words::number(field)?;
        count += 1;
    }
    Some(count)
}
