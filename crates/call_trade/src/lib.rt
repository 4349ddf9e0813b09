// A trade.
#![tactic(auto)]

ghost use Rattle.std.specs.Prelude.{◌≡◌, true, ◌≤◌, nat_abs, pos, neg_ℤ};
ghost use Rattle.rules.specs.Book.{good, position_of, basis_of};
ghost use Rattle.rules.specs.Calls.{first, handed_out};
ghost use Rattle.rules.specs.Calls as Rules;
ghost use Rattle.rules.specs.Answers.{number_in, answer_in};
ghost use Rattle.call_trade.specs.Offered.{place_of, party_number, room_number, offered_number, Movable};

use judge::terms;
use rules::book::{Book, Section};
use rules::limits::{POSITION_MOST, PRICE_MOST, SECTION_PLACES, TRADE_LOTS_MOST, TRADES_MOST};
use rules::refusal::Refusal;
use rules::units::{Kopecks, Lots};
use value::signed;

// Whether a position, so many lots on, would be beyond its limit (01, Trade, 1).
fn exceeds(s: Section, lots: i64) -> bool
    requires { (nat_abs (position_of s) ≤ 1_000_000) × (nat_abs lots ≤ 10_000) }
    ensures { result ≡ Rules.exceeds s lots }
{
    let position = s.position.0;
    let next = signed::sum(position, lots);
    !signed::within(next, POSITION_MOST)
}

// 5, 10 and 11 of a trade (01, Trade, 1).
fn party_check(expired: bool, held: usize, buyer: u8, seller: u8) -> Result<(), Refusal>
    ensures { number_in result ≡ party_number expired held buyer seller }
{
    let bought = buyer as usize;
    let sold = seller as usize;
    if expired {
        return Err(Refusal::Expired);
    }
    if held <= bought {
        return Err(Refusal::UnknownSection); // the buyer
    }
    if held <= sold {
        return Err(Refusal::UnknownSection); // the seller
    }
    if bought == sold {
        return Err(Refusal::BuyerIsSeller);
    }
    Ok(())
}

// 12 and 13 of a trade (01, Trade, 1).
#[tactic(auto, unfolding(rules::specs::Calls::first, rules::specs::Calls::size_refusals))]
fn size_check(r: u32, price: u32, lots: u32) -> Result<(), Refusal>
    requires { 1 ≤ r }
    ensures { number_in result ≡ first (Rules.size_refusals r price lots) }
{
    if !terms::counted(price, PRICE_MOST) {
        return Err(Refusal::BadTradePrice);
    }
    if price % r != 0 {
        return Err(Refusal::BadTradePrice);
    }
    if !terms::counted(lots, TRADE_LOTS_MOST) {
        return Err(Refusal::BadTradeLots);
    }
    Ok(())
}

// 14 and 15 of a trade between two sections (01, Trade, 1).
fn room_check(s: Section, t: Section, trades: u32, lots: u32) -> Result<(), Refusal>
    requires { (nat_abs (position_of s) ≤ 1_000_000) × (nat_abs (position_of t) ≤ 1_000_000) × (lots ≤ 10_000) }
    ensures { number_in result ≡ room_number s t trades lots }
{
    if exceeds(s, lots as i64) {
        return Err(Refusal::PositionExceeded);
    }
    if exceeds(t, 0 - (lots as i64)) {
        return Err(Refusal::PositionExceeded);
    }
    if TRADES_MOST <= trades {
        return Err(Refusal::TradesFull);
    }
    Ok(())
}

// The place of a section in a book; the last place where the number is that of none (01, Book, 1).
pub fn place(section: u8) -> usize
    ensures { result ≡ place_of section }
{
    let last = SECTION_PLACES - 1;
    (section as usize).min(last)
}

// Whether a trade is accepted, or why it is refused, by what a good book says of it: marks and counts, and the sections at the places of the two (01, Trade, 1).
// (Parts of a book, and no book: a block judges its trades in a loop, where no book is passed by value.)
#[tactic(auto, unfolding(crate::specs::Offered::offered_number))]
pub fn offered(
    expired: bool,
    held: usize,
    r: u32,
    trades: u32,
    s: Section,
    t: Section,
    buyer: u8,
    seller: u8,
    price: u32,
    lots: u32,
) -> Result<(), Refusal>
    requires { (1 ≤ r) × (nat_abs (position_of s) ≤ 1_000_000) × (nat_abs (position_of t) ≤ 1_000_000) }
    ensures { number_in result ≡ offered_number expired held r trades s t buyer seller price lots }
{
    party_check(expired, held, buyer, seller)?;
    size_check(r, price, lots)?;
    room_check(s, t, trades, lots)
}

// Whether a trade on a good book is accepted, or why it is refused (01, Trade, 1).
pub fn check(b: Book, buyer: u8, seller: u8, price: u32, lots: u32) -> Result<(), Refusal>
    requires { good b ≡ true }
    ensures { number_in result ≡ Rules.trade_number b buyer seller price lots }
{
    let bought = place(buyer);
    let sold = place(seller);
    let s = b.sections[bought];
    let t = b.sections[sold];
    offered(
        b.expired, b.held, b.r, b.trades, s, t, buyer, seller, price, lots,
    )
}

// A section after so many lots at an entry value, bought plus, sold minus (01, Book, 3).
fn moved(s: Section, lots: Lots, value: Kopecks) -> Section
    requires s_bound { (nat_abs (position_of s) ≤ 1_000_000) × (nat_abs (basis_of s) ≤ 21_000_000_000_000_000) }
    requires lots_bound { (nat_abs lots.0 ≤ 10_000) × (nat_abs value.0 ≤ 1_000_000_000) }
    ensures { result ≡ Rules.moved s lots value }
{
    let position = s.position.0;
    let basis = s.basis.0;
    let count = lots.0;
    let paid = value::worth(lots, value).0;
    let held = Lots(signed::sum(position, count));
    let owed = Kopecks(signed::sum(basis, paid));
    let mut next = s;
    next.position = held;
    next.basis = owed;
    next
}

// The buyer's section after a trade so answered: moved by the lots where it is accepted, else as it was (01, Book, 3 and 7).
pub fn bought(answer: Result<(), Refusal>, s: Section, lots: u32, value: Kopecks) -> Section
    requires { number_in answer ≡ 0 → Movable s lots value }
    ensures { result ≡ handed_out (number_in answer) (Rules.moved s (record { 0 = pos lots }) value) s }
{
    match answer {
        Ok(()) => moved(s, Lots(lots as i64), value),
        Err(_) => s,
    }
}

// The seller's, which moves by as many the other way (01, Book, 3 and 7).
pub fn sold(answer: Result<(), Refusal>, s: Section, lots: u32, value: Kopecks) -> Section
    requires { number_in answer ≡ 0 → Movable s lots value }
    ensures { result ≡ handed_out (number_in answer) (Rules.moved s (record { 0 = neg_ℤ (pos lots) }) value) s }
{
    match answer {
        Ok(()) => moved(s, Lots(0 - (lots as i64)), value),
        Err(_) => s,
    }
}

// The book after the trade: the buyer moves by the lots, the seller by as many the other way.
pub fn traded(b: Book, buyer: u8, seller: u8, price: u32, lots: u32) -> Book
    requires { Rules.trade_number b buyer seller price lots ≡ 0 }
    ensures { result ≡ Rules.traded b buyer seller price lots }
{
    let value = terms::value_at(b.w, b.r, price);
    let to = buyer as usize;
    let from = seller as usize;
    let s = b.sections[to];
    let t = b.sections[from];
    let buying = bought(Ok(()), s, lots, value);
    let selling = sold(Ok(()), t, lots, value);
    let mut next = b;
    next.sections[to] = buying;
    next.sections[from] = selling;
    next.trades = b.trades + 1;
    next
}

// The book after a trade, or a refusal (01, Trade, 1; 01, Book, 5 and 6 and 7; 01, Bound, a).
#[tactic(auto, unfolding(rules::specs::Calls::first, rules::specs::Calls::party_refusals, rules::specs::Calls::trade_number, rules::specs::Calls::trade_answer))]
pub fn trade(b: Book, buyer: u8, seller: u8, price: u32, lots: u32) -> Result<Book, Refusal>
    ensures { answer_in b result ≡ Rules.trade_answer b buyer seller price lots }
{
    if !judge::good(b) {
        return Err(Refusal::BadBook);
    }
    check(b, buyer, seller, price, lots)?;
    Ok(traded(b, buyer, seller, price, lots))
}
