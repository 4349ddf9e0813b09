// The worked example by the public calls, from opening to expiry (01, Checked, 6): a row for each call with its answer; after the day session the margins
// and their sum; after the expiry its counts, the lines, what each section delivers and what of it is terminated and has lapsed, and a place of the register
// past the last line. Then calls that are refused, one of them on the book of noughts.
#![tactic(auto)]

use rules::book::{Book, Expired};
use rules::limits::REGISTER_PLACES;
use rules::lists::ExpiryLists;
use rules::refusal::Refusal;
use std::io;
use std::io::Print;
use value::signed;

fn row(rt: &impl Print, name: &[u8], number: u8) -> io::Result<()> {
    rt.write_all(name)?;
    println!(rt; " {number}")
}

fn amount(rt: &impl Print, name: &[u8], kopecks: i64) -> io::Result<()> {
    rt.write_all(name)?;
    println!(rt; " {kopecks}")
}

// The sum of two amounts, or 0 where one of them is too large to be one of ours.
fn added(x: i64, y: i64) -> i64 {
    if !signed::within(x, 1_000_000_000_000_000_000) {
        return 0;
    }
    if !signed::within(y, 1_000_000_000_000_000_000) {
        return 0;
    }
    signed::sum(x, y)
}

// The number of a call on a book, and the book to go on with.
fn answered(
    rt: &impl Print,
    name: &[u8],
    b: Book,
    answer: Result<Book, Refusal>,
) -> io::Result<Book> {
    match answer {
        Ok(book) => {
            row(rt, name, 0)?;
            Ok(book)
        }
        Err(refusal) => {
            row(rt, name, refusal as u8)?;
            Ok(b)
        }
    }
}

fn with_sections(rt: &impl Print, b: Book) -> io::Result<Book> {
    let one = answered(
        rt,
        b"section",
        b,
        call_section::open_section(b, 1, *b"A000001", 1, false),
    )?;
    let two = answered(
        rt,
        b"section",
        one,
        call_section::open_section(one, 1, *b"A000002", 2, true),
    )?;
    let three = answered(
        rt,
        b"section",
        two,
        call_section::open_section(two, 2, *b"B000001", 3, true),
    )?;
    answered(
        rt,
        b"section",
        three,
        call_section::open_section(three, 3, *b"C000001", 4, false),
    )
}

fn with_trades(rt: &impl Print, b: Book) -> io::Result<Book> {
    let one = answered(rt, b"trade", b, call_trade::trade(b, 0, 1, 1_500_000, 2))?;
    let two = answered(
        rt,
        b"trade",
        one,
        call_trade::trade(one, 0, 2, 1_500_000, 3),
    )?;
    answered(
        rt,
        b"trade",
        two,
        call_trade::trade(two, 3, 2, 1_510_000, 3),
    )
}

fn with_session(rt: &impl Print, b: Book) -> io::Result<Book> {
    let mut margins = [0i64; 4];
    let held = answered(
        rt,
        b"session",
        b,
        call_session::hold_session(b, 1_520_000, &mut margins),
    )?;
    amount(rt, b"margin", margins[0])?;
    amount(rt, b"margin", margins[1])?;
    amount(rt, b"margin", margins[2])?;
    amount(rt, b"margin", margins[3])?;
    let longs = added(margins[0], margins[3]);
    let shorts = added(margins[1], margins[2]);
    amount(rt, b"sum", added(longs, shorts))?;
    Ok(held)
}

fn with_notices(rt: &impl Print, b: Book) -> io::Result<Book> {
    let one = answered(
        rt,
        b"condition",
        b,
        call_condition::set_condition(b, 0, true),
    )?;
    let two = answered(
        rt,
        b"condition",
        one,
        call_condition::set_condition(one, 1, true),
    )?;
    let three = answered(
        rt,
        b"condition",
        two,
        call_condition::set_condition(two, 2, true),
    )?;
    let four = answered(
        rt,
        b"notice",
        three,
        call_notice::file_notice(three, 1, 0, 2),
    )?;
    let five = answered(rt, b"notice", four, call_notice::file_notice(four, 2, 4, 2))?;
    answered(rt, b"notice", five, call_notice::file_notice(five, 2, 1, 4))
}

fn numbers(
    rt: &impl Print,
    name: &[u8],
    first: u64,
    second: u64,
    third: u64,
    fourth: u64,
) -> io::Result<()> {
    rt.write_all(name)?;
    println!(rt; " {first} {second} {third} {fourth}")
}

fn sections(rt: &impl Print, name: &[u8], lots: [u32; 4]) -> io::Result<()> {
    numbers(
        rt,
        name,
        lots[0] as u64,
        lots[1] as u64,
        lots[2] as u64,
        lots[3] as u64,
    )
}

fn line(rt: &impl Print, buyer: u8, elevator: u8, seller: u8, lots: u32) -> io::Result<()> {
    numbers(
        rt,
        b"line",
        buyer as u64,
        elevator as u64,
        seller as u64,
        lots as u64,
    )
}

// The number and the counts of an expiry on a book, and the book to go on with.
fn counts(rt: &impl Print, b: Book, answer: Result<Expired, Refusal>) -> io::Result<Book> {
    match answer {
        Ok(e) => {
            row(rt, b"expiry", 0)?;
            println!(rt; "pairs, lines, kept {} {} {}", e.pairs, e.lines, e.kept)?;
            Ok(e.book)
        }
        Err(refusal) => {
            row(rt, b"expiry", refusal as u8)?;
            println!(rt; "pairs, lines, kept 0 0 0")?;
            Ok(b)
        }
    }
}

fn with_expiry(rt: &impl Print, b: Book) -> io::Result<Book> {
    let mut buyers = [99u8; REGISTER_PLACES];
    let mut elevators = [99u8; REGISTER_PLACES];
    let mut sellers = [99u8; REGISTER_PLACES];
    let mut lots = [99u32; REGISTER_PLACES];
    let mut delivered = [99u32; 4];
    let mut terminated = [99u32; 4];
    let mut lapsed = [99u32; 4];
    let mut lists = ExpiryLists {
        buyers: &mut buyers,
        elevators: &mut elevators,
        sellers: &mut sellers,
        lots: &mut lots,
        delivered: &mut delivered,
        terminated: &mut terminated,
        lapsed: &mut lapsed,
    };
    let expired = counts(rt, b, call_expiry::expiry(b, &mut lists))?;
    for i in 0..4 {
        line(rt, buyers[i], elevators[i], sellers[i], lots[i])?;
    }
    sections(rt, b"delivered", delivered)?;
    sections(rt, b"terminated", terminated)?;
    sections(rt, b"lapsed", lapsed)?;
    Ok(expired)
}

fn main(rt: HostRuntime) -> io::Result<()> {
    let none = call_opening::blank_book(0, 0, 0);
    let opened = answered(&rt, b"opening", none, call_opening::open(25, 2_500, 100))?;
    let sections_held = with_sections(&rt, opened)?;
    let traded = with_trades(&rt, sections_held)?;
    let after_session = with_session(&rt, traded)?;
    let held = with_notices(&rt, after_session)?;
    answered(
        &rt,
        b"notice",
        held,
        call_notice::file_notice(held, 2, 1, 1),
    )?;
    let expired = with_expiry(&rt, held)?;
    with_expiry(&rt, expired)?;
    let refused = answered(&rt, b"opening", none, call_opening::open(25, 1, 200_001))?;
    answered(
        &rt,
        b"condition",
        refused,
        call_condition::set_condition(refused, 0, true),
    )?;
    Ok(())
}
