// A template and what is filled in, written into a buffer from a place on. Each function answers the next place.
#![tactic(auto)]

ghost use Rattle.std.specs.Prelude.{◌≡◌, ◌+◌, ◌≤◌, ◌<◌, cond, length};
ghost use Rattle.listing.specs.Laid.{Laid};
ghost use Rattle.template.specs.Template.{sign_text, takes_number, piece_text, filled};

use list_leaves::entries;
use listing::text;
use listing::text::MINUS;

mod code;

// Whether a byte of the template takes a number.
fn takes_number(c: u8) -> bool
    ensures { result ≡ takes_number c }
{
    (c == b'#') | (c == b'~') | (c == b'@')
}

// How many numbers are used once a byte of the template is done.
fn used_after(c: u8, used: usize) -> usize
    requires { used < 18_446_744_073_709_551_615 }
    ensures { result ≡ used + cond (takes_number c) 1 0 }
{
    if takes_number(c) { used + 1 } else { used }
}

// A minus sign, but for 0.
#[tactic(auto, using(crate::proofs::Signs::sign_none, crate::proofs::Signs::sign_laid))]
fn sign(n: u64, out: &mut [u8], at: usize) -> usize
    requires { at + length (sign_text n) ≤ length out.old }
    ensures { Laid out.old at (sign_text n) out.new result }
{
    if n == 0 {
        return at;
    }
    out[at] = MINUS;
    at + 1
}

// What a byte of the template stands for.
fn piece(c: u8, n: u64, codes: &[u8], out: &mut [u8], at: usize) -> usize
    requires { at + length (piece_text c n codes.now) ≤ length out.old }
    ensures { Laid out.old at (piece_text c n codes.now) out.new result }
{
    if c == b'#' {
        return text::decimal_digits(n, out, at);
    }
    if c == b'~' {
        return sign(n, out, at);
    }
    if c == b'@' {
        return code::put(codes, n, out, at);
    }
    out[at] = c;
    at + 1
}

// A template, filled.
pub fn fill(template: &[u8], numbers: &[u64], codes: &[u8], out: &mut [u8], at: usize) -> usize
    requires { at + length (filled template.now numbers.now codes.now) ≤ length out.old }
    ensures { Laid out.old at (filled template.now numbers.now codes.now) out.new result }
{
    let mut next = at;
    let mut used = 0;
    for &c in template {
        let n = entries::nth(numbers, used);
        next = piece(c, n, codes, out, next);
        used = used_after(c, used);
    }
    next
}
