// The worked example as a file (01, Checked, 6), written over other bytes and read back. The rows: what each write answered, one of them past the end;
// the sizes; the kinds; the operands; the events, up to a refusal past the last; and the refusal of the file cut short by a byte.
#![tactic(auto)]

use file_event::{read, write};
use rules::events::Event;
use std::io;
use std::io::Print;

mod rows;

fn event(rt: &impl Print, file: &mut [u8], place: usize, event: Event) -> io::Result<()> {
    rows::answer(rt, write::event(file, place, event))
}

fn section(
    rt: &impl Print,
    file: &mut [u8],
    place: usize,
    settlement: u8,
    seller: bool,
    code: [u8; 7],
    participant: u32,
) -> io::Result<()> {
    let values = Event::Section {
        settlement,
        seller,
        code,
        participant,
    };
    event(rt, file, place, values)
}

fn trade(
    rt: &impl Print,
    file: &mut [u8],
    place: usize,
    buyer: u8,
    seller: u8,
    price: u32,
    lots: u32,
) -> io::Result<()> {
    let values = Event::Trade {
        buyer,
        seller,
        price,
        lots,
    };
    event(rt, file, place, values)
}

fn condition(rt: &impl Print, file: &mut [u8], place: usize, section: u8) -> io::Result<()> {
    event(rt, file, place, Event::Condition { section, met: true })
}

fn notice(
    rt: &impl Print,
    file: &mut [u8],
    place: usize,
    section: u8,
    elevator: u8,
    lots: u32,
) -> io::Result<()> {
    let values = Event::Notice {
        section,
        elevator,
        lots,
    };
    event(rt, file, place, values)
}

fn sections(rt: &impl Print, file: &mut [u8]) -> io::Result<()> {
    section(rt, file, 0, 1, false, *b"A000001", 1)?;
    section(rt, file, 1, 1, true, *b"A000002", 2)?;
    section(rt, file, 2, 2, true, *b"B000001", 3)?;
    section(rt, file, 3, 3, false, *b"C000001", 4)
}

fn trades(rt: &impl Print, file: &mut [u8]) -> io::Result<()> {
    trade(rt, file, 4, 0, 1, 1_500_000, 2)?;
    trade(rt, file, 5, 0, 2, 1_500_000, 3)?;
    trade(rt, file, 6, 3, 2, 1_510_000, 3)?;
    event(rt, file, 7, Event::Session { price: 1_520_000 })
}

fn notices(rt: &impl Print, file: &mut [u8]) -> io::Result<()> {
    condition(rt, file, 8, 0)?;
    condition(rt, file, 9, 1)?;
    condition(rt, file, 10, 2)?;
    notice(rt, file, 11, 1, 0, 2)?;
    notice(rt, file, 12, 2, 4, 2)?;
    notice(rt, file, 13, 2, 1, 4)
}

fn fill(rt: &impl Print, file: &mut [u8]) -> io::Result<()> {
    rows::answer(rt, write::sizes(file, 25, 2_500, 100))?;
    sections(rt, file)?;
    trades(rt, file)?;
    notices(rt, file)?;
    event(rt, file, 14, Event::Expiry)?;
    event(rt, file, 15, Event::Expiry)
}

fn operands(rt: &impl Print, file: &[u8]) -> io::Result<()> {
    for i in 0..16 {
        rows::hex(rt, read::operand(file, i))?;
    }
    Ok(())
}

fn main(rt: HostRuntime) -> io::Result<()> {
    let mut file = [255u8; 271];
    fill(&rt, &mut file)?;
    rows::hex(&rt, &file[0..16])?;
    rows::hex(&rt, &file[16..31])?;
    operands(&rt, &file)?;
    rows::events(&rt, &file)?;
    rows::events(&rt, &file[0..270])
}
