// A session in words: its value, and each section's margin.
use explain_row::row::Rows;
use explain_row::{rounding, row};
use list_leaves::{changed, entries};
use rules::book::{Book, LastSession, Section};
use rules::limits::SECTION_PLACES;
use rules::refusal::Refusal;
use std::io;
use std::io::Print;
use value::signed;

// What the sessions so far come to: each section's margins over all of them, how many there were, and in how many the margins sum to zero (01, Reading, 5).
#[derive(Drop)]
pub struct Sessions {
    pub sums: [i64; SECTION_PLACES],
    pub held: u64,
    pub zero: u64,
}

// A section's row: position, basis, margin, the margins summed down to this section, and its own over all sessions (01, Session, 3).
fn margin_row(
    rows: &Rows<impl Print>,
    s: Section,
    i: usize,
    margin: i64,
    down: i64,
    all: i64,
) -> io::Result<()> {
    let position = s.position.0;
    let basis = s.basis.0;
    let numbers = [
        i as u64,
        row::minus(position),
        signed::size(position),
        row::minus(basis),
        signed::size(basis),
        row::minus(margin),
        signed::size(margin),
        row::minus(down),
        signed::size(down),
        row::minus(all),
        signed::size(all),
    ];
    rows.say(b"    @ ~# ~# ~# ~# ~#\n", &numbers)
}

// The rows of the sections held; the margins are added to each section's sum. The answer is what they sum to (01, Session, 3; 01, Reading, 5).
fn margin_rows(
    rows: &Rows<impl Print>,
    b: &Book,
    margins: &[i64; SECTION_PLACES],
    sums: &mut [i64; SECTION_PLACES],
) -> io::Result<i64> {
    let mut total: i64 = 0;
    for (i, s) in b.sections.iter().take(b.held).enumerate() {
        let margin = entries::nth(margins, i);
        total = total.saturating_add(margin);
        changed::add(sums, i, margin);
        margin_row(rows, *s, i, margin, total, entries::nth(sums, i))?;
    }
    Ok(total)
}

// The session's own row: day or evening, and its price (01, Session, 2).
fn head(rows: &Rows<impl Print>, last: LastSession, place: usize, price: u32) -> io::Result<()> {
    let numbers = [place as u64, price as u64];
    match last {
        LastSession::Evening => rows.say(
            b"# session: evening, price P #; V = P*K/100000\n",
            &numbers,
        ),
        LastSession::Day => rows.say(b"# session: day, price P #; V = P*K/100000\n", &numbers),
        LastSession::None => Ok(()),
    }
}

// A session (01, Session, 1 and 2 and 3).
pub fn session(
    rows: &Rows<impl Print>,
    b: Book,
    place: usize,
    k: u32,
    price: u32,
    sessions: &mut Sessions,
) -> io::Result<Result<Book, Refusal>> {
    let mut margins = [0; SECTION_PLACES];
    let answer = call_session::hold_session(b, price, &mut margins);
    let Ok(book) = answer else {
        return Ok(answer);
    };
    head(rows, book.last, place, price)?;
    rounding::value(rows, k, price)?;
    rows.words(
        b"    section, position, basis, margin = position*V - basis, session sum so far, section sum so far\n",
    )?;
    let sum = margin_rows(rows, &b, &margins, &mut sessions.sums)?;
    sessions.held = sessions.held.saturating_add(1);
    if sum == 0 {
        sessions.zero = sessions.zero.saturating_add(1);
    }
    let value = value::value(k, price).0;
    rows.say(
        b"    the margins of this session sum to ~#; each basis becomes position*#\n",
        &[row::minus(sum), signed::size(sum), signed::size(value)],
    )?;
    Ok(answer)
}
