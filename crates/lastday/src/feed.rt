// An input that comes in pieces: rows are answered as they end, and what is kept of the one that has not ended stands at the start of a list.
ghost use Rattle.std.specs.Prelude.{◌≡◌, ◌+◌, ◌*◌, ◌≤◌, length, take};
ghost use Rattle.listing.specs.Laid.{Laid};
ghost use Rattle.lastday.specs.Feeding.{kept_most, byte_text, byte_kept, text_of, kept_after, last_text};
ghost use Rattle.lastday.specs.Feeding.{Fed as Feeding-as-Fed};

use crate::rows;
use listing::text::LINE_END;

// Of a row that is too long, one byte more than the most is kept.
pub const KEPT_BYTES: usize = 4_097;

// How many bytes of the row are kept, and how many of the text are written.
#[derive(Drop)]
pub struct Fed {
    pub held: usize,
    pub written: usize,
}

// One byte: it ends the row, or it is put to what is kept of it.
fn byte(b: u8, kept: &mut [u8], held: usize, out: &mut [u8], at: usize) -> Fed
    requires { (held ≤ kept_most) × (length kept.old ≡ kept_most) × (at + 11 ≤ length out.old) }
    ensures { Feeding-as-Fed out.old at (byte_text (take held kept.old) b) out.new result.written (byte_kept (take held kept.old) b) kept.new result.held }
{
    if b == LINE_END {
        let written = rows::answer_to(&kept[..held], out, at);
        return Fed { held: 0, written };
    }
    if held < KEPT_BYTES {
        kept[held] = b;
        return Fed {
            held: held + 1,
            written: at,
        };
    }
    Fed { held, written: at }
}

// A piece of the input.
pub fn piece(bytes: &[u8], kept: &mut [u8], held: usize, out: &mut [u8]) -> Fed
    requires { (held ≤ kept_most) × (length kept.old ≡ kept_most) × (11 * length bytes.now ≤ length out.old) }
    ensures { Feeding-as-Fed out.old 0 (text_of (take held kept.old) bytes.now) out.new result.written (kept_after (take held kept.old) bytes.now) kept.new result.held }
{
    let mut fed = Fed { held, written: 0 };
    for b in bytes {
        fed = byte(*b, kept, fed.held, out, fed.written);
    }
    fed
}

// The end of the input: a row that has begun ends there.
pub fn end(kept: &[u8], out: &mut [u8]) -> usize
    requires { 11 ≤ length out.old }
    ensures { Laid out.old 0 (last_text kept.now) out.new result }
{
    if kept.len() == 0 {
        return 0;
    }
    rows::answer_to(kept, out, 0)
}
