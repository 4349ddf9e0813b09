// What the program `calls` prints, written into a lent buffer from a place on. Each function answers the next place.
#![tactic(auto)]

ghost use Rattle.std.specs.Prelude.{ℕ, ◌+◌, ◌≤◌, ◌<◌, length};
ghost use Rattle.rules.specs.Words.{entry};
ghost use Rattle.rules.specs.CallsListing.{call_row, margins_row};
ghost use Rattle.listing.specs.Laid.{Laid};
ghost use Rattle.shared_lists.specs.Lists.{lists_read};
ghost use Rattle.calls_listing.specs.Texts.{answer_rows, counts_row, delivery};

use listing::text::{LINE_END, SPACE};
use listing::{codes, rows, text};
use rules::book::Expired;
use shared_lists::Lists;

mod fields;
mod lots;

// A call's row: the place of its event, and its number (02, b, 3; 01, Program, 3).
pub fn call(place: usize, number: u8, out: &mut [u8], at: usize) -> usize
    requires { at + length (call_row place number) ≤ length out.old }
    ensures { Laid out.old at (call_row place number) out.new result }
{
    let at = text::number(place as u64, SPACE, out, at);
    text::number(number as u64, LINE_END, out, at)
}

// The rows of a block's trades, from the start of the buffer: the first of them stands at a place (02, b, 3).
pub fn answers(place: usize, numbers: &[u8], out: &mut [u8]) -> usize
    requires { (place + length numbers.now ≤ 3_800) × (length (answer_rows place numbers.now) ≤ length out.old) }
    ensures { Laid out.old 0 (answer_rows place numbers.now) out.new result }
{
    let mut next = 0;
    for i in 0..numbers.len() {
        next = call(place + i, numbers[i], out, next);
    }
    next
}

// A session's margins, in one row (01, Session, 3).
pub fn margins(margins: &[i64], out: &mut [u8], at: usize) -> usize
    requires { at + length (margins_row margins.now) ≤ length out.old }
    ensures { Laid out.old at (margins_row margins.now) out.new result }
{
    let end = fields::end_of(0, margins.len());
    let at = text::word(b"margins", end, out, at);
    fields::wholes(margins, out, at)
}

// How many pairs and lines an expiry has formed, and how many lines are kept (01, Expiry, 7; 02, a, 6).
fn counts(pairs: usize, lines: usize, kept: usize, out: &mut [u8], at: usize) -> usize
    requires { at + length (counts_row pairs lines kept) ≤ length out.old }
    ensures { Laid out.old at (counts_row pairs lines kept) out.new result }
{
    let at = text::word(b"expiry", SPACE, out, at);
    let at = text::number(pairs as u64, SPACE, out, at);
    let at = text::number(lines as u64, SPACE, out, at);
    text::number(kept as u64, LINE_END, out, at)
}

// An expiry: how many pairs and lines were formed, how many lines are kept, these lines, and each section's lots
// (01, Expiry, 7; 01, Program, 1; 02, a, 4 and 6).
pub fn delivered(expired: Expired, lists: Lists<'_>, out: &mut [u8], at: usize) -> usize
    requires held_bound { (expired.book.held ≤ 128) × (expired.book.lot.0 ≤ 1_000) }
    requires kept_in_bounds { (expired.kept ≤ length lists.buyers.now) × (expired.kept ≤ length lists.elevators.now) × (expired.kept ≤ length lists.sellers.now) × (expired.kept ≤ length lists.lots.now) }
    requires held_in_bounds { (expired.book.held ≤ length lists.delivered.now) × (expired.book.held ≤ length lists.terminated.now) × (expired.book.held ≤ length lists.lapsed.now) }
    requires by_index { (i : ℕ) → i < expired.kept → (entry lists.buyers.now i < 128) × (entry lists.sellers.now i < 128) × (entry lists.lots.now i ≤ 1_000_000) }
    requires lapsed_in_bounds { at + length (delivery expired (lists_read lists).lists) ≤ length out.old }
    ensures { Laid out.old at (delivery expired (lists_read lists.entry).lists) out.new result }
{
    let lines = expired.lines;
    let kept = expired.kept;
    let lot = expired.book.lot;
    let held = expired.book.held;
    let mut codes = [0; 896];
    codes::laid(expired.book, &mut codes);
    let at = counts(expired.pairs, lines, kept, out, at);
    let at = rows::head(kept, out, at);
    let at = rows::lines(&codes, lists, lot, kept, out, at);
    lots::sections(&codes, lists, held, out, at)
}
