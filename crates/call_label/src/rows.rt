// How many bytes the rows of lines and of sections have: one walk over each, in which the lines are judged too.
ghost use Rattle.std.specs.Prelude.{◌≡◌, ◌≤◌, length, IfSome};
ghost use Rattle.rules.specs.Label.{row_fit};
ghost use Rattle.call_label.specs.Lengths.{line_length, lines_counted, section_length, sections_length};
ghost use Rattle.shared_lists.specs.Lists.{lists_read};

use crate::lengths;
use crate::lists::Lists;
use listing::rows;
use rules::limits::{ELEVATOR_MOST, LINE_LOTS_MOST};
use rules::units::{Lots, Tonnes};

// The codes of a row with the bytes that end its fields: two codes and five ends for a line, one code and five ends for a section (01, Program, 1 and 3; 01, Book, 3).
const LINE_FRAME: usize = 19;

const SECTION_FRAME: usize = 12;

// Whether a listing can have a row (02, m, 4).
fn row_fit(held: usize, buyer: u8, elevator: u8, seller: u8, lots: u32) -> bool
    ensures { result ≡ row_fit held (record { buyer = buyer; elevator = elevator; seller = seller; lots = lots }) }
{
    let buyer_held = (buyer as usize) < held;
    let seller_held = (seller as usize) < held;
    let some_lots = (1 <= lots) & (lots <= LINE_LOTS_MOST);
    buyer_held & ((elevator <= ELEVATOR_MOST) & (seller_held & some_lots))
}

// A line's row: two codes, elevator, lots, tonnes (02, m, 2).
fn line(lot: Tonnes, elevator: u8, lots: u32) -> usize
    requires { (lot.0 ≤ 1_000) × (lots ≤ 1_000_000) }
    ensures { (result ≡ line_length lot elevator lots) × (result ≤ 79) }
{
    let sold = lots as i64;
    let weight = rows::tonnes(lot, Lots(sold));
    let count = lots as u64;
    let tonnes = weight.0 as u64;
    let of_elevator = lengths::digits(elevator as u64);
    let of_lots = lengths::digits(count);
    let of_tonnes = lengths::digits(tonnes);
    let wheat = of_lots + of_tonnes;
    let numbers = of_elevator + wheat;
    LINE_FRAME + numbers
}

// A section's row: its code, delivered, terminated and lapsed lots, the sum of its margins (02, m, 2).
fn section(delivered: u32, terminated: u32, lapsed: u32, sum: i64) -> usize
    ensures { (result ≡ section_length delivered terminated lapsed sum) × (result ≤ 93) }
{
    let of_delivered = lengths::digits(delivered as u64);
    let of_terminated = lengths::digits(terminated as u64);
    let of_lapsed = lengths::digits(lapsed as u64);
    let of_sum = lengths::whole(sum);
    let not_lapsed = of_delivered + of_terminated;
    let lots = not_lapsed + of_lapsed;
    let numbers = lots + of_sum;
    SECTION_FRAME + numbers
}

// The rows of the register, judged and counted row by row: none where one is not fit (02, m, 2 and 4).
pub fn lines(held: usize, lot: Tonnes, lists: Lists) -> Option<usize>
    requires { (lot.0 ≤ 1_000) × (length lists.buyers.now ≤ 382) × (length lists.elevators.now ≡ length lists.buyers.now) × (length lists.sellers.now ≡ length lists.buyers.now) × (length lists.lots.now ≡ length lists.buyers.now) }
    ensures value { result ≡ lines_counted held lot (lists_read lists.entry).lists }
    ensures bound { IfSome result (λ n. n ≤ 30_178) }
{
    let mut bytes = 0;
    for i in 0..lists.buyers.len() {
        let elevator = lists.elevators[i];
        let some = lists.lots[i];
        if !row_fit(held, lists.buyers[i], elevator, lists.sellers[i], some) {
            return None;
        }
        let more = line(lot, elevator, some);
        bytes += more;
    }
    Some(bytes)
}

// The rows of the sections held (02, m, 2).
pub fn sections(held: usize, lists: Lists) -> usize
    requires { (held ≤ 128) × (held ≤ length lists.delivered.now) × (held ≤ length lists.terminated.now) × (held ≤ length lists.lapsed.now) × (held ≤ length lists.sums.now) }
    ensures { (result ≡ sections_length (lists_read lists.entry) held) × (result ≤ 11_904) }
{
    let mut bytes = 0;
    for i in 0..held {
        let delivered = lists.delivered[i];
        let terminated = lists.terminated[i];
        let lapsed = lists.lapsed[i];
        let more = section(delivered, terminated, lapsed, lists.sums[i]);
        bytes += more;
    }
    bytes
}
