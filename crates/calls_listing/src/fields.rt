// The last fields of a row, as many as there are, and the bytes that end them.
ghost use Rattle.std.specs.Prelude.{◌+◌, ◌≡◌, ◌≤◌, length};
ghost use Rattle.listing.specs.Laid.{Laid};
ghost use Rattle.calls_listing.specs.Texts.{end_at, wholes};

use listing::text;
use listing::text::{LINE_END, SPACE};

// What stands after i of a row's n last fields: a space where another follows, the row's end after the last (01, Program, 3).
pub fn end_of(i: usize, n: usize) -> u8
    ensures { result ≡ end_at i n }
{
    if i < n {
        return SPACE;
    }
    LINE_END
}

// Whole numbers from a place on, the last of them with the row's end; it answers the next place (01, Program, 3).
pub fn wholes(numbers: &[i64], out: &mut [u8], at: usize) -> usize
    requires { at + length (wholes numbers.now) ≤ length out.old }
    ensures { Laid out.old at (wholes numbers.now) out.new result }
{
    let mut next = at;
    for i in 0..numbers.len() {
        let end = end_of(i + 1, numbers.len());
        next = text::whole(numbers[i], end, out, next);
    }
    next
}
