// A trade in words: its value, and what it leaves its two sections.
use explain_row::row::Rows;
use explain_row::{amounts, rounding, row};
use list_leaves::changed;
use rules::book::{Book, Section};
use rules::limits::SECTION_PLACES;
use rules::refusal::Refusal;
use std::io;
use std::io::Print;
use value::signed;

// Of each section the lots bought and sold, and the entry values, bought plus, sold minus (01, Calls, 8).
#[derive(Drop)]
pub struct Trades {
    pub bought: [u64; SECTION_PLACES],
    pub sold: [u64; SECTION_PLACES],
    pub entered: [i64; SECTION_PLACES],
}

// A section of the book, by its number.
pub fn section_of(b: &Book, i: usize) -> Section {
    if i < SECTION_PLACES {
        return b.sections[i];
    }
    b.sections[0]
}

// What the trade leaves a section; `sold` says on which side it stands (01, Book, 4).
fn party(
    rows: &Rows<impl Print>,
    b: &Book,
    i: u8,
    lots: u32,
    value: i64,
    sold: bool,
) -> io::Result<()> {
    let s = section_of(b, i as usize);
    let position = s.position.0;
    let basis = s.basis.0;
    let worth = amounts::worth(lots as i64, value);
    let numbers = [
        i as u64,
        lots as u64,
        signed::size(value),
        signed::size(worth),
        row::minus(position),
        signed::size(position),
        row::minus(basis),
        signed::size(basis),
    ];
    if sold {
        return rows.say(b"    @: #*# = # sold, position ~#, basis ~#\n", &numbers);
    }
    rows.say(b"    @: #*# = # bought, position ~#, basis ~#\n", &numbers)
}

// The trade is added to the lots bought and sold, and to the entry values (01, Calls, 8).
fn counted(buyer: u8, seller: u8, lots: u32, value: i64, trades: &mut Trades) {
    let worth = amounts::worth(lots as i64, value);
    changed::raise(&mut trades.bought, buyer as usize, lots as u64);
    changed::raise(&mut trades.sold, seller as usize, lots as u64);
    changed::add(&mut trades.entered, buyer as usize, worth);
    changed::add(
        &mut trades.entered,
        seller as usize,
        amounts::less(0, worth),
    );
}

// A trade (01, Trade, 1).
pub fn trade(
    rows: &Rows<impl Print>,
    b: Book,
    place: usize,
    k: u32,
    buyer: u8,
    seller: u8,
    price: u32,
    lots: u32,
    trades: &mut Trades,
) -> io::Result<Result<Book, Refusal>> {
    let answer = call_trade::trade(b, buyer, seller, price, lots);
    let Ok(book) = answer else {
        return Ok(answer);
    };
    let value = value::value(k, price).0;
    counted(buyer, seller, lots, value, trades);
    let numbers = [
        place as u64,
        buyer as u64,
        lots as u64,
        seller as u64,
        price as u64,
    ];
    rows.say(
        b"# trade: @ buys # lots from @ at price P #; V = P*K/100000\n",
        &numbers,
    )?;
    rounding::value(rows, k, price)?;
    party(rows, &book, buyer, lots, value, false)?;
    party(rows, &book, seller, lots, value, true)?;
    Ok(answer)
}
