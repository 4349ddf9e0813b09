// A section code as text: in a damaged file it may be any bytes, and the text stays text.
ghost use Rattle.std.specs.Prelude.{◌≡◌, ◌+◌, ◌*◌, ◌≤◌, ◌<◌, min, length};
ghost use Rattle.io.specs.Digits.{hex_digit_ascii};
ghost use Rattle.listing.specs.Laid.{Laid};
ghost use Rattle.template.specs.Template.{visible, byte_text, first_code, code_text};

use list_leaves::entries;

const BACKSLASH: u8 = 92;

// Whether a byte stands for itself.
fn is_visible(b: u8) -> bool
    ensures { result ≡ visible b }
{
    (32 < b) & ((b < 127) & (b != BACKSLASH))
}

// A digit in base 16.
fn digit(d: u8) -> u8
    requires { d < 16 }
    ensures { result ≡ hex_digit_ascii d }
{
    if d < 10 { 48 + d } else { 87 + d }
}

// A byte as text.
fn byte(b: u8, out: &mut [u8], at: usize) -> usize
    requires { at + length (byte_text b) ≤ length out.old }
    ensures { Laid out.old at (byte_text b) out.new result }
{
    if is_visible(b) {
        out[at] = b;
        return at + 1;
    }
    let escape = [BACKSLASH, b'x', digit(b / 16), digit(b % 16)];
    let next = at + 4;
    out[at..next].copy_from_slice(&escape);
    next
}

// The first of the section codes.
fn first(codes: &[u8], out: &mut [u8], at: usize) -> usize
    requires { at + length (first_code codes.now) ≤ length out.old }
    ensures { Laid out.old at (first_code codes.now) out.new result }
{
    let mut next = at;
    for i in 0..7 {
        let b = entries::nth(codes, i);
        next = byte(b, out, next);
    }
    next
}

// Where the code of a section starts, no later than the end of the codes.
fn start(number: u64, end: usize) -> usize
    ensures { result ≡ min (7 * number) end }
{
    number.saturating_mul(7).min(end as u64) as usize
}

// The code of the section of a number.
pub fn put(codes: &[u8], number: u64, out: &mut [u8], at: usize) -> usize
    requires { at + length (code_text codes.now number) ≤ length out.old }
    ensures { Laid out.old at (code_text codes.now number) out.new result }
{
    let from = start(number, codes.len());
    first(&codes[from..], out, at)
}
