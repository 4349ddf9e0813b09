// How many bytes a number has in base ten, counted by comparison, and the rows of a word and numbers. Nothing is written.
ghost use Rattle.std.specs.Prelude.{◌≡◌, ◌≤◌, length};
ghost use Rattle.rules.specs.Words.{listed, decimal, signed_decimal};
ghost use Rattle.listing.specs.Columns.{head_row, refused_row};
ghost use Rattle.call_label.specs.Lengths.{largest_of};

use value::signed;

// The largest numbers of one digit, of two, and so on; the last is the largest of 64 bits. (A table and no logarithm: three edits change its entries.)
const LARGEST: [u64; 20] = [
    9,
    99,
    999,
    9_999,
    99_999,
    999_999,
    9_999_999,
    99_999_999,
    999_999_999,
    9_999_999_999,
    99_999_999_999,
    999_999_999_999,
    9_999_999_999_999,
    99_999_999_999_999,
    999_999_999_999_999,
    9_999_999_999_999_999,
    99_999_999_999_999_999,
    999_999_999_999_999_999,
    9_999_999_999_999_999_999,
    18_446_744_073_709_551_615,
];

fn largest() -> [u64; 20]
    ensures { result ≡ listed 20 largest_of }
{
    LARGEST
}

// The digits of a number: one, and one more for each of the largest numbers that it passes (02, m, 2).
pub fn digits(n: u64) -> usize
    ensures { (result ≡ length (decimal n)) × (result ≤ 20) }
{
    let table = largest();
    for (more, most) in table.iter().enumerate() {
        if n <= *most {
            return more + 1;
        }
    }
    20
}

// With a minus sign where it is below 0 (02, m, 2).
pub fn whole(z: i64) -> usize
    ensures { (result ≡ length (signed_decimal z)) × (result ≤ 21) }
{
    let size = signed::size(z);
    let count = digits(size);
    if z < 0 {
        return count + 1;
    }
    count
}

// The first row: a word of eight bytes, a space, how many rows there are, the row's end (01, Program, 1 and 3).
pub fn head(rows: usize) -> usize
    ensures { (result ≡ length (head_row rows)) × (result ≤ 30) }
{
    let count = digits(rows as u64);
    10 + count
}

// A refused file's row: a word of seven bytes, two spaces, number and place, the row's end (01, Program, 2 and 3).
pub fn refused(number: u8, place: usize) -> usize
    ensures { result ≡ length (refused_row number place) }
{
    let of_number = digits(number as u64);
    let of_place = digits(place as u64);
    let numbers = of_number + of_place;
    10 + numbers
}
