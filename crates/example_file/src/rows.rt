// Rows of the program's output.
use file_reader::Reader;
use rules::events::Event;
use rules::refusal::Refusal;
use std::io;
use std::io::Print;

// What a write answered.
pub fn answer(rt: &impl Print, written: Result<(), Refusal>) -> io::Result<()> {
    let number = match written {
        Ok(()) => 0,
        Err(refusal) => refusal as u8,
    };
    println!(rt; "answer {number}")
}

pub fn hex(rt: &impl Print, bytes: &[u8]) -> io::Result<()> {
    for byte in bytes {
        print!(rt; "{byte:02x}")?;
    }
    rt.write_all(b"\n")
}

fn mark(rt: &impl Print, marked: bool) -> io::Result<()> {
    if marked {
        rt.write_all(b" yes")
    } else {
        rt.write_all(b" no")
    }
}

fn section(
    rt: &impl Print,
    settlement: u8,
    seller: bool,
    code: &[u8],
    participant: u32,
) -> io::Result<()> {
    print!(rt; "section {settlement}")?;
    mark(rt, seller)?;
    rt.write_all(b" ")?;
    rt.write_all(code)?;
    print!(rt; " {participant}")
}

fn trade(rt: &impl Print, buyer: u8, seller: u8, price: u32, lots: u32) -> io::Result<()> {
    print!(rt; "trade {buyer} {seller} {price} {lots}")
}

fn session(rt: &impl Print, price: u32) -> io::Result<()> {
    print!(rt; "session {price}")
}

fn condition(rt: &impl Print, section: u8, met: bool) -> io::Result<()> {
    print!(rt; "condition {section}")?;
    mark(rt, met)
}

fn notice(rt: &impl Print, section: u8, elevator: u8, lots: u32) -> io::Result<()> {
    print!(rt; "notice {section} {elevator} {lots}")
}

fn expiry(rt: &impl Print) -> io::Result<()> {
    rt.write_all(b"expiry")
}

fn event(rt: &impl Print, event: Event) -> io::Result<()> {
    match event {
        Event::Section {
            settlement,
            seller,
            code,
            participant,
        } => section(rt, settlement, seller, &code, participant)?,
        Event::Trade {
            buyer,
            seller,
            price,
            lots,
        } => trade(rt, buyer, seller, price, lots)?,
        Event::Session { price } => session(rt, price)?,
        Event::Condition { section, met } => condition(rt, section, met)?,
        Event::Notice {
            section,
            elevator,
            lots,
        } => notice(rt, section, elevator, lots)?,
        Event::Expiry => expiry(rt)?,
    }
    rt.write_all(b"\n")
}

fn refused(rt: &impl Print, found: Result<Event, Refusal>) -> io::Result<()> {
    if let Err(refusal) = found {
        return println!(rt; "refused {}", refusal as u8);
    }
    Ok(())
}

// Each event by the number that the last read answered, up to a refusal.
pub fn events(rt: &impl Print, file: &[u8]) -> io::Result<()> {
    let mut reader = Reader::new(file);
    for _ in 0..3_801 {
        let read = reader.next();
        let Ok(values) = read.found else {
            return refused(rt, read.found);
        };
        event(rt, values)?;
        reader = reader.moved(read.next);
    }
    Ok(())
}
