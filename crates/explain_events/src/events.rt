// The events that are accepted, in words: openings of sections, conditions and notices.
ghost use Rattle.std.specs.Prelude.{ℕ, ◌≡◌, ◌<◌};
ghost use Rattle.rules.specs.Book.{section_at};
ghost use Rattle.listing.specs.Columns.{code_at};

use explain_row::row::Rows;
use rules::book::Book;
use rules::refusal::Refusal;
use std::io;
use std::io::Print;

// The seven bytes of each section's code, end to end.
pub const NAME_BYTES: usize = 896;

// The section codes of a book, end to end (01, Forms, 7).
pub fn names_of(b: &Book) -> [u8; NAME_BYTES]
    ensures { (i : ℕ) → i < 128 → code_at result i ≡ (section_at b.now i).code }
{
    let mut names = [0; NAME_BYTES];
    listing::codes::laid(*b, &mut names);
    names
}

// A section opened; its own row names it already (01, Section, 1).
pub fn section(
    rows: &Rows<impl Print>,
    b: Book,
    place: usize,
    settlement: u8,
    code: [u8; 7],
    participant: u32,
    seller: bool,
) -> io::Result<Result<Book, Refusal>> {
    let answer = call_section::open_section(b, settlement, code, participant, seller);
    let Ok(book) = answer else {
        return Ok(answer);
    };
    let names = names_of(&book);
    let rows = Rows {
        rt: rows.rt,
        names: &names,
    };
    let number = b.held as u64;
    let numbers = [
        place as u64,
        number,
        number,
        settlement as u64,
        participant as u64,
    ];
    rows.say(
        b"# section: @ has number #, settlement code #, participant #",
        &numbers,
    )?;
    rows.seller_mark(seller)?;
    rows.words(b"\n")?;
    Ok(answer)
}

// A condition met or not (01, Condition, 1).
pub fn condition(
    rows: &Rows<impl Print>,
    b: Book,
    place: usize,
    section: u8,
    met: bool,
) -> io::Result<Result<Book, Refusal>> {
    let answer = call_condition::set_condition(b, section, met);
    if answer.is_err() {
        return Ok(answer);
    }
    let numbers = [place as u64, section as u64];
    if met {
        rows.say(b"# condition: @ meets its condition\n", &numbers)?;
    } else {
        rows.say(b"# condition: @ does not meet its condition\n", &numbers)?;
    }
    Ok(answer)
}

// A notice filed (01, Notice, 1).
pub fn notice(
    rows: &Rows<impl Print>,
    b: Book,
    place: usize,
    section: u8,
    elevator: u8,
    lots: u32,
) -> io::Result<Result<Book, Refusal>> {
    let answer = call_notice::file_notice(b, section, elevator, lots);
    if answer.is_err() {
        return Ok(answer);
    }
    let numbers = [
        place as u64,
        section as u64,
        lots as u64,
        elevator as u64,
        b.filed as u64,
    ];
    rows.say(
        b"# notice: @ files # lots at elevator #, notice # in filing order\n",
        &numbers,
    )?;
    Ok(answer)
}
