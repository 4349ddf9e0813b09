// A refused event: the event, its number, and the words of that refusal with the numbers that make it hold.
use crate::trade;
use explain_row::row::Rows;
use explain_row::{amounts, row};
use rules::book::{Book, LastSession};
use rules::events::Event;
use rules::refusal::Refusal;
use std::io;
use std::io::Print;
use value::signed;

// With its condition met or not, for an event that was not taken.
fn met_or_not(rows: &Rows<impl Print>, met: bool) -> io::Result<()> {
    if met {
        return rows.words(b", met\n");
    }
    rows.words(b", not met\n")
}

// A section by its fields, as the file has them; `@` is its own code (01, File, 4).
fn section_fields(
    rows: &Rows<impl Print>,
    place: usize,
    settlement: u8,
    code: [u8; 7],
    participant: u32,
) -> io::Result<()> {
    let rows = Rows {
        rt: rows.rt,
        names: &code,
    };
    rows.say(
        b"# section: section code @, settlement code #, participant #\n",
        &[place as u64, 0, settlement as u64, participant as u64],
    )
}

// The event by its fields, as the file has them (01, File, 4 and 5 and 6 and 7 and 8 and 9).
pub fn fields(rows: &Rows<impl Print>, place: usize, event: Event) -> io::Result<()> {
    let at = place as u64;
    match event {
        Event::Section {
            settlement,
            code,
            participant,
            ..
        } => section_fields(rows, place, settlement, code, participant),
        Event::Trade {
            buyer,
            seller,
            price,
            lots,
        } => rows.say(
            b"# trade: buyer #, seller #, price #, # lots\n",
            &[at, buyer as u64, seller as u64, price as u64, lots as u64],
        ),
        Event::Session { price } => rows.say(b"# session: price #\n", &[at, price as u64]),
        Event::Condition { section, met } => {
            rows.say(b"# condition: section #", &[at, section as u64])?;
            met_or_not(rows, met)
        }
        Event::Notice {
            section,
            elevator,
            lots,
        } => rows.say(
            b"# notice: section #, elevator #, # lots\n",
            &[at, section as u64, elevator as u64, lots as u64],
        ),
        Event::Expiry => rows.say(b"# expiry\n", &[at]),
    }
}

// A section number that is not held (01, Trade, 1).
fn unknown(rows: &Rows<impl Print>, held: usize, section: u8) -> io::Result<()> {
    if (section as usize) < held {
        return Ok(());
    }
    rows.say(
        b"    refusal 10: section # is not held; # are, numbered from 0\n",
        &[section as u64, held as u64],
    )
}

// Which byte of a section code is not allowed: the first one (01, Section, 1).
fn bad_byte(rows: &Rows<impl Print>, code: [u8; 7]) -> io::Result<()> {
    for (i, byte) in code.iter().enumerate() {
        if !section_code::code_good([*byte; 7]) {
            return rows.say(
                b"    refusal 7: byte # of the section code is #, neither 0-9 (48-57) nor A-Z (65-90)\n",
                &[i as u64, *byte as u64],
            );
        }
    }
    Ok(())
}

// The section that has the code already (01, Section, 1).
fn code_holder(rows: &Rows<impl Print>, b: &Book, code: [u8; 7]) -> io::Result<()> {
    let rows = Rows {
        rt: rows.rt,
        names: &code,
    };
    for (i, s) in b.sections.iter().take(b.held).enumerate() {
        if s.code == code {
            return rows.say(
                b"    refusal 8: the section code @ is held already, by section #\n",
                &[0, i as u64],
            );
        }
    }
    Ok(())
}

// A section that is turned away (01, Section, 1).
pub fn section(
    rows: &Rows<impl Print>,
    b: &Book,
    refusal: Refusal,
    settlement: u8,
    code: [u8; 7],
) -> io::Result<()> {
    match refusal {
        Refusal::BadSettlement => rows.say(
            b"    refusal 6: settlement code # is above 63\n",
            &[settlement as u64],
        ),
        Refusal::BadCode => bad_byte(rows, code),
        Refusal::CodeHeld => code_holder(rows, b, code),
        _ => rows.say(
            b"    refusal 9: # sections are held, and there is place for 128\n",
            &[b.held as u64],
        ),
    }
}

// The price of a trade: beyond its limits, or no multiple of R (01, Trade, 1).
fn trade_price(rows: &Rows<impl Print>, price: u32, r: u32) -> io::Result<()> {
    if (price < 1) | (10_000_000 < price) {
        return rows.say(
            b"    refusal 12: price # is outside 1 to 10000000\n",
            &[price as u64],
        );
    }
    rows.say(
        b"    refusal 12: price # is no multiple of R #\n",
        &[price as u64, r as u64],
    )
}

// What a position would be, when so many lots are taken off (01, Trade, 1).
fn position(rows: &Rows<impl Print>, b: &Book, i: u8, lots: i64) -> io::Result<()> {
    let position = trade::section_of(b, i as usize).position.0;
    let next = amounts::less(position, lots);
    let numbers = [
        i as u64,
        row::minus(position),
        signed::size(position),
        row::minus(next),
        signed::size(next),
    ];
    rows.say(
        b"    the position of @ is ~# and would be ~#; the limit is 1000000 on either side\n",
        &numbers,
    )
}

// Both positions of a trade (01, Trade, 1).
fn positions(
    rows: &Rows<impl Print>,
    b: &Book,
    buyer: u8,
    seller: u8,
    lots: u32,
) -> io::Result<()> {
    let more = lots as i64;
    rows.words(b"    refusal 14: a position would pass its limit\n")?;
    position(rows, b, buyer, amounts::less(0, more))?;
    position(rows, b, seller, more)
}

// A trade that is turned away (01, Trade, 1).
pub fn trade(
    rows: &Rows<impl Print>,
    b: &Book,
    refusal: Refusal,
    buyer: u8,
    seller: u8,
    price: u32,
    lots: u32,
) -> io::Result<()> {
    match refusal {
        Refusal::UnknownSection => {
            unknown(rows, b.held, buyer)?;
            unknown(rows, b.held, seller)
        }
        Refusal::BuyerIsSeller => rows.say(
            b"    refusal 11: section # is buyer and seller\n",
            &[buyer as u64],
        ),
        Refusal::BadTradePrice => trade_price(rows, price, b.r),
        Refusal::BadTradeLots => rows.say(
            b"    refusal 13: # lots are outside 1 to 10000\n",
            &[lots as u64],
        ),
        Refusal::PositionExceeded => positions(rows, b, buyer, seller, lots),
        _ => rows.say(
            b"    refusal 15: # trades since the last session, and 2000 is the most\n",
            &[b.trades as u64],
        ),
    }
}

// A session that is turned away (01, Session, 1).
pub fn session(rows: &Rows<impl Print>, price: u32) -> io::Result<()> {
    rows.say(
        b"    refusal 16: price # is outside 1 to 10000000\n",
        &[price as u64],
    )
}

// A condition that is turned away (01, Condition, 1).
pub fn condition(rows: &Rows<impl Print>, b: &Book, section: u8) -> io::Result<()> {
    unknown(rows, b.held, section)
}

// A notice that is turned away (01, Notice, 1).
pub fn notice(
    rows: &Rows<impl Print>,
    b: &Book,
    refusal: Refusal,
    section: u8,
    elevator: u8,
    lots: u32,
) -> io::Result<()> {
    match refusal {
        Refusal::UnknownSection => unknown(rows, b.held, section),
        Refusal::BadElevator => rows.say(
            b"    refusal 18: elevator # is above 31\n",
            &[elevator as u64],
        ),
        Refusal::BadNoticeLots => rows.say(
            b"    refusal 19: # lots are outside 1 to 1000000\n",
            &[lots as u64],
        ),
        Refusal::NoticeFiled => rows.say(
            b"    refusal 20: @ has a notice at elevator # already\n",
            &[section as u64, elevator as u64],
        ),
        _ => rows.say(
            b"    refusal 21: # notices are filed, and there is place for 256\n",
            &[b.filed as u64],
        ),
    }
}

// An expiry that is turned away: what stands last before it (01, Expiry call, 1).
pub fn expiry(rows: &Rows<impl Print>, b: &Book) -> io::Result<()> {
    match b.last {
        LastSession::None => rows.words(b"    refusal 22: no session was held\n"),
        LastSession::Evening => {
            rows.words(b"    refusal 22: the last session is an evening one\n")
        }
        LastSession::Day => rows.say(
            b"    refusal 22: # trades followed the last session\n",
            &[b.trades as u64],
        ),
    }
}

// An event after the expiry (01, Section, 1).
pub fn expired(rows: &Rows<impl Print>, place: usize) -> io::Result<()> {
    rows.say(
        b"    refusal 5: the book has expired, by the event before #\n",
        &[place as u64],
    )
}

// Which section a number means, where it is held.
fn named(rows: &Rows<impl Print>, held: usize, section: u8) -> io::Result<()> {
    if held <= (section as usize) {
        return Ok(());
    }
    rows.say(b"    section # is @\n", &[section as u64, section as u64])
}

// The sections that an event names (01, File, 5 and 7 and 8).
fn sections(rows: &Rows<impl Print>, held: usize, event: Event) -> io::Result<()> {
    match event {
        Event::Trade { buyer, seller, .. } => {
            named(rows, held, buyer)?;
            named(rows, held, seller)
        }
        Event::Condition { section, .. } | Event::Notice { section, .. } => {
            named(rows, held, section)
        }
        _ => Ok(()),
    }
}

// An event that is turned away, and why.
pub fn event(
    rows: &Rows<impl Print>,
    b: &Book,
    place: usize,
    refusal: Refusal,
    event: Event,
) -> io::Result<()> {
    fields(rows, place, event)?;
    sections(rows, b.held, event)?;
    if refusal == Refusal::Expired {
        return expired(rows, place);
    }
    match event {
        Event::Section {
            settlement,
            code,
            ..
        } => section(rows, b, refusal, settlement, code),
        Event::Trade {
            buyer,
            seller,
            price,
            lots,
        } => trade(rows, b, refusal, buyer, seller, price, lots),
        Event::Session { price } => session(rows, price),
        Event::Condition { section, .. } => condition(rows, b, section),
        Event::Notice {
            section,
            elevator,
            lots,
        } => notice(rows, b, refusal, section, elevator, lots),
        Event::Expiry => expiry(rows, b),
    }
}
