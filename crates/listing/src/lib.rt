// What the program prints, written into a lent buffer.
#![tactic(auto)]

ghost use Rattle.std.specs.Prelude.{ℕ, ◌≡◌, ◌+◌, ◌≤◌, ◌<◌, length};
ghost use Rattle.rules.specs.Answers.{refusal_number};
ghost use Rattle.rules.specs.Words.{entry, over};
ghost use Rattle.rules.specs.Listing.{listing_bytes, refusal_row};
ghost use Rattle.listing.specs.Columns.{refused_row};
ghost use Rattle.listing.specs.Laid.{Laid};
ghost use Rattle.shared_lists.specs.Lists.{lists_read};

use rules::book::Book;
use rules::refusal::Refusal;
use shared_lists::Lists;

pub mod codes;
mod digits;
pub mod rows;
pub mod text;

// The listing of an expired book, its register and its lists: how many lines are kept, a row for each of them, a row for each section. It
// answers how many bytes were written; later ones remain (01, Program, 1 and 3; 01, Forms, 7; 01, Bound, a; 02, a, 4 and 6).
pub fn accepted(b: Book, kept: usize, lists: Lists<'_>, out: &mut [u8]) -> usize
    requires held_bound { (b.held ≤ 128) × (b.lot.0 ≤ 1_000) }
    requires kept_in_bounds { (kept ≤ length lists.buyers.now) × (kept ≤ length lists.elevators.now) × (kept ≤ length lists.sellers.now) × (kept ≤ length lists.lots.now) }
    requires held_in_bounds { (b.held ≤ length lists.delivered.now) × (b.held ≤ length lists.terminated.now) × (b.held ≤ length lists.lapsed.now) × (b.held ≤ length lists.sums.now) }
    requires by_index { (i : ℕ) → i < kept → (entry lists.buyers.now i < 128) × (entry lists.sellers.now i < 128) × (entry lists.lots.now i ≤ 1_000_000) }
    requires sums_in_bounds { length (listing_bytes b kept (lists_read lists)) ≤ length out.old }
    ensures value { result ≡ length (listing_bytes b kept (lists_read lists.entry)) }
    ensures out_after { out.new ≡ over (listing_bytes b kept (lists_read lists.entry)) out.old }
{
    let lot = b.lot;
    let held = b.held;
    let mut codes = [0; 896];
    codes::laid(b, &mut codes);
    let at = rows::head(kept, out, 0);
    let at = rows::lines(&codes, lists, lot, kept, out, at);
    rows::sections(&codes, lists, held, out, at)
}

// A refusal's number, as a row shows it (01, Book, 6).
pub fn number_of(refusal: Refusal) -> u8
    ensures { result ≡ refusal_number refusal }
{
    refusal as u8
}

// A refused file's row: the number and the place of its refusal. It answers how many bytes were written; later ones remain
// (01, Program, 2 and 3; 01, Bound, a).
pub fn refused(number: u8, place: usize, out: &mut [u8]) -> usize
    requires { length (refused_row number place) ≤ length out.old }
    ensures value { result ≡ length (refused_row number place) }
    ensures out_after { out.new ≡ over (refused_row number place) out.old }
{
    text::row_of_two(b"refused", number as u64, place as u64, out, 0)
}

// A refusal's row where it has no place: its number alone. It answers the next place (02, e, 5; 02, l, 4).
pub fn refusal(number: u8, out: &mut [u8], at: usize) -> usize
    requires { at + length (refusal_row number) ≤ length out.old }
    ensures { Laid out.old at (refusal_row number) out.new result }
{
    text::row(b"refused", number as u64, out, at)
}
