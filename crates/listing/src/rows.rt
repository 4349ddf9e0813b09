// The rows of a listing, written into a buffer from a place on. Each function answers the next place.
ghost use Rattle.std.specs.Prelude.{ℕ, ◌+◌, ◌≡◌, ◌≤◌, ◌<◌, nat_abs, length};
ghost use Rattle.rules.specs.Words.{entry};
ghost use Rattle.rules.specs.Units;
ghost use Rattle.shared_lists.specs.Lists.{lists_read};
ghost use Rattle.listing.specs.Columns.{head_row, line_row_of, line_rows, lots_fields, section_row_of, section_rows};
ghost use Rattle.listing.specs.Laid.{Laid};

use crate::text;
use crate::text::{LINE_END, SPACE};
use rules::units::{Lots, Tonnes};
use shared_lists::Lists;
use value::signed;

// The first row: how many lines are kept (01, Program, 1; 02, a, 6).
pub fn head(kept: usize, out: &mut [u8], at: usize) -> usize
    requires { at + length (head_row kept) ≤ length out.old }
    ensures { Laid out.old at (head_row kept) out.new result }
{
    text::row(b"register", kept as u64, out, at)
}

// Lots become tonnes by the lot size alone (01, Head, 4; 01, Forms, 4).
pub fn tonnes(lot: Tonnes, lots: Lots) -> Tonnes
    requires { (lot.0 ≤ 1_000) × (nat_abs lots.0 ≤ 1_000_000) }
    ensures { result ≡ Units.tonnes_of lot lots }
{
    let count = lots.0;
    let each = lot.0;
    let size = signed::size(count);
    Tonnes((size as u32) * each)
}

// The row of line number i: buyer's code, elevator, seller's code, lots, tonnes (01, Program, 1).
fn line(codes: &[u8], lists: Lists<'_>, lot: Tonnes, i: usize, out: &mut [u8], at: usize) -> usize
    requires codes_len { (length codes.now ≡ 896) × (lot.0 ≤ 1_000) }
    requires i_in_bounds { (i < length lists.buyers.now) × (i < length lists.elevators.now) × (i < length lists.sellers.now) × (i < length lists.lots.now) }
    requires at_index { (entry lists.buyers.now i < 128) × (entry lists.sellers.now i < 128) × (entry lists.lots.now i ≤ 1_000_000) }
    requires lots_in_bounds { at + length (line_row_of codes.now lot (lists_read lists).lists i) ≤ length out.old }
    ensures { Laid out.old at (line_row_of codes.now lot (lists_read lists.entry).lists i) out.new result }
{
    let buyer = lists.buyers[i];
    let elevator = lists.elevators[i];
    let seller = lists.sellers[i];
    let lots = lists.lots[i];
    let weight = tonnes(lot, Lots(lots as i64));
    let at = text::code(codes, buyer as usize, SPACE, out, at);
    let at = text::number(elevator as u64, SPACE, out, at);
    let at = text::code(codes, seller as usize, SPACE, out, at);
    let at = text::number(lots as u64, SPACE, out, at);
    text::number(weight.0 as u64, LINE_END, out, at)
}

// A section's code, delivered, terminated and lapsed lots, and the byte that ends the last of them (01, Program, 1; 02, a, 4).
// (The lots come by value and not by their lists: `terminated_and_lapsed_swapped.edit` of `calls_listing` swaps them there.)
pub fn lots(
    codes: &[u8],
    i: usize,
    delivered: u32,
    terminated: u32,
    lapsed: u32,
    end: u8,
    out: &mut [u8],
    at: usize,
) -> usize
    requires codes_len { (length codes.now ≡ 896) × (i < 128) }
    requires end_in_bounds { at + length (lots_fields codes.now i delivered terminated lapsed end) ≤ length out.old }
    ensures { Laid out.old at (lots_fields codes.now i delivered terminated lapsed end) out.new result }
{
    let at = text::code(codes, i, SPACE, out, at);
    let at = text::number(delivered as u64, SPACE, out, at);
    let at = text::number(terminated as u64, SPACE, out, at);
    text::number(lapsed as u64, end, out, at)
}

// The row of section number i: code, delivered, terminated, lapsed, sum of its margins (01, Program, 1; 02, a, 4).
fn section(codes: &[u8], lists: Lists<'_>, i: usize, out: &mut [u8], at: usize) -> usize
    requires codes_len { length codes.now ≡ 896 }
    requires i_in_bounds { (i < 128) × (i < length lists.delivered.now) × (i < length lists.terminated.now) × (i < length lists.lapsed.now) × (i < length lists.sums.now) }
    requires sum_in_bounds { at + length (section_row_of codes.now (lists_read lists) i) ≤ length out.old }
    ensures { Laid out.old at (section_row_of codes.now (lists_read lists.entry) i) out.new result }
{
    let delivered = lists.delivered[i];
    let terminated = lists.terminated[i];
    let lapsed = lists.lapsed[i];
    let sum = lists.sums[i];
    let at = lots(codes, i, delivered, terminated, lapsed, SPACE, out, at);
    text::whole(sum, LINE_END, out, at)
}

// The rows of the first lines of the register (01, Program, 1).
pub fn lines(
    codes: &[u8],
    lists: Lists<'_>,
    lot: Tonnes,
    lines: usize,
    out: &mut [u8],
    at: usize,
) -> usize
    requires codes_len { (length codes.now ≡ 896) × (lot.0 ≤ 1_000) }
    requires lines_in_bounds { (lines ≤ length lists.buyers.now) × (lines ≤ length lists.elevators.now) × (lines ≤ length lists.sellers.now) × (lines ≤ length lists.lots.now) }
    requires by_index { (i : ℕ) → i < lines → (entry lists.buyers.now i < 128) × (entry lists.sellers.now i < 128) × (entry lists.lots.now i ≤ 1_000_000) }
    requires lines_in_bounds_2 { at + length (line_rows codes.now lot (lists_read lists).lists lines) ≤ length out.old }
    ensures { Laid out.old at (line_rows codes.now lot (lists_read lists.entry).lists lines) out.new result }
{
    let mut next = at;
    for i in 0..lines {
        next = line(codes, lists, lot, i, out, next);
    }
    next
}

// The rows of the sections held, by number (01, Program, 1; 02, a, 4).
pub fn sections(codes: &[u8], lists: Lists<'_>, held: usize, out: &mut [u8], at: usize) -> usize
    requires codes_len { length codes.now ≡ 896 }
    requires held_bound { (held ≤ 128) × (held ≤ length lists.delivered.now) × (held ≤ length lists.terminated.now) × (held ≤ length lists.lapsed.now) × (held ≤ length lists.sums.now) }
    requires held_in_bounds { at + length (section_rows codes.now (lists_read lists) held) ≤ length out.old }
    ensures { Laid out.old at (section_rows codes.now (lists_read lists.entry) held) out.new result }
{
    let mut next = at;
    for i in 0..held {
        next = section(codes, lists, i, out, next);
    }
    next
}
