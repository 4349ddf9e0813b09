// Demand 3's sentences, as request a) of document 02 restates them, with this contract's numbers in them.
use crate::walk::Sums;
use explain_events::session::Sessions;
use explain_events::trade::Trades;
use explain_row::row::Rows;
use explain_row::{amounts, row};
use list_leaves::{changed, entries};
use rules::book::{Book, FileRead, Notice, Section};
use rules::limits::SECTION_PLACES;
use rules::lists::{ExpiryLists, ReadLists};
use std::io;
use std::io::Print;
use value::signed;

// The first sentence: margins sum to zero (00, 3).
fn margins(rows: &Rows<impl Print>, sessions: &Sessions) -> io::Result<()> {
    rows.words(b"The margins of each accepted session sum to zero.\n")?;
    rows.say(
        b"    sessions accepted: #; of these with margins that sum to 0: #\n",
        &[sessions.held, sessions.zero],
    )
}

// The lots of the lines kept, by section, on either side (01, Calls, 8).
fn register_lots(lists: &ExpiryLists, kept: usize) -> [u64; SECTION_PLACES] {
    let mut named = [0; SECTION_PLACES];
    for k in 0..kept {
        let amount = entries::nth(lists.lots, k) as u64;
        let buyer = entries::nth(lists.buyers, k) as usize;
        let seller = entries::nth(lists.sellers, k) as usize;
        changed::raise(&mut named, buyer, amount);
        changed::raise(&mut named, seller, amount);
    }
    named
}

// A section's lots: bought less sold, and what became of them (00, 3; 02, a, 5).
fn lots_row(
    rows: &Rows<impl Print>,
    s: Section,
    i: usize,
    trades: &Trades,
    lists: &ExpiryLists,
    named: u64,
) -> io::Result<()> {
    let position = s.position.0;
    let bought = entries::nth(&trades.bought, i);
    let sold = entries::nth(&trades.sold, i);
    let delivered = entries::nth(lists.delivered, i) as u64;
    let terminated = entries::nth(lists.terminated, i) as u64;
    let lapsed = entries::nth(lists.lapsed, i) as u64;
    let all = delivered + terminated + lapsed;
    rows.say(
        b"    @ bought #, sold #: position ~#\n",
        &[
            i as u64,
            bought,
            sold,
            row::minus(position),
            signed::size(position),
        ],
    )?;
    rows.say(
        b"        # delivered + # terminated + # lapsed = #; # in the register\n",
        &[delivered, terminated, lapsed, all, named],
    )
}

// The second sentence, section by section (00, 3; 02, a, 5).
fn lots_rows(
    rows: &Rows<impl Print>,
    end: &FileRead,
    lists: &ExpiryLists,
    trades: &Trades,
) -> io::Result<()> {
    let b = &end.book;
    let named = register_lots(lists, end.kept);
    rows.words(
        b"Each section's delivered, terminated and lapsed lots sum to the size of its lots bought less\nsold, and its lots in the register equal its delivered lots.\n",
    )?;
    for (i, s) in b.sections.iter().take(b.held).enumerate() {
        lots_row(rows, *s, i, trades, lists, entries::nth(&named, i))?;
    }
    Ok(())
}

// A notice: what is drawn of it in the lines formed (01, Calls, 9).
fn notice(rows: &Rows<impl Print>, n: Notice, k: usize, drawn: u64) -> io::Result<()> {
    let numbers = [
        k as u64,
        n.section as u64,
        n.elevator as u64,
        drawn,
        signed::size(n.lots.0),
    ];
    rows.say(
        b"    notice # of @ at elevator #: # drawn of # lots\n",
        &numbers,
    )
}

// The third sentence, notice by notice (00, 3).
fn notices(rows: &Rows<impl Print>, b: &Book, drawn: &[u64]) -> io::Result<()> {
    rows.words(b"No notice is drawn beyond its lots; lines taken out count too.\n")?;
    for (k, n) in b.notices.iter().take(b.filed).enumerate() {
        notice(rows, *n, k, entries::nth(drawn, k))?;
    }
    Ok(())
}

// How many long sections have delivered or lapsed lots (01, Calls, 6; 02, a, 7).
fn delivering_longs(b: &Book, lists: &ExpiryLists) -> u64 {
    let mut count: u64 = 0;
    for (i, s) in b.sections.iter().enumerate() {
        let some = (0 < entries::nth(lists.delivered, i)) | (0 < entries::nth(lists.lapsed, i));
        if (0 < s.position.0) & some {
            count = count.saturating_add(1);
        }
    }
    count
}

// The fourth sentence: the limit of the lines (00, 3; 01, Calls, 9; 02, a, 7).
fn lines(
    rows: &Rows<impl Print>,
    end: &FileRead,
    lists: &ExpiryLists,
    drawn: &[u64],
) -> io::Result<()> {
    rows.words(
        b"The lines formed are at most the long sections with delivered or lapsed lots and the drawn\nnotices together, less one.\n",
    )?;
    if end.lines == 0 {
        return rows.words(b"    lines formed: 0\n");
    }
    let longs = delivering_longs(&end.book, lists);
    let notices = drawn.iter().filter(|lots| 0 < **lots).count() as u64;
    let limit = longs.saturating_add(notices).saturating_sub(1);
    rows.say(
        b"    lines formed: #; such long sections # + drawn notices # - 1 = #\n",
        &[end.lines as u64, longs, notices, limit],
    )
}

// A section's margins: what they are, and what they telescope to (00, 3).
fn telescoped(
    rows: &Rows<impl Print>,
    s: Section,
    i: usize,
    value: i64,
    entered: i64,
    sum: i64,
) -> io::Result<()> {
    let position = s.position.0;
    let worth = amounts::worth(position, value);
    let all = amounts::less(worth, entered);
    let numbers = [
        i as u64,
        row::minus(position),
        signed::size(position),
        signed::size(value),
        row::minus(entered),
        signed::size(entered),
        row::minus(all),
        signed::size(all),
        row::minus(sum),
        signed::size(sum),
    ];
    rows.say(
        b"    @: ~# * # less ~# is ~#; its margins sum to ~#\n",
        &numbers,
    )
}

// The last sentence, section by section; `value` is V of the last session's price (00, 3).
fn telescope(
    rows: &Rows<impl Print>,
    b: &Book,
    value: i64,
    entered: &[i64],
    sums: &[i64],
) -> io::Result<()> {
    rows.words(
        b"Each section's margins sum to its net lots times the last session's value, less lots times\nentry value, bought plus, sold minus. The number after less sums its bought and sold of the trades.\n",
    )?;
    for (i, s) in b.sections.iter().take(b.held).enumerate() {
        let spent = entries::nth(entered, i);
        telescoped(rows, *s, i, value, spent, entries::nth(sums, i))?;
    }
    Ok(())
}

// All five sentences, of what the read of an accepted file hands out: lines formed and kept, the expired book, and in the lists lent the register and each
// section's lots and margins (01, Reading, 5).
pub fn explain(
    rows: &Rows<impl Print>,
    end: &FileRead,
    lent: &ReadLists,
    k: u32,
    sums: &Sums,
) -> io::Result<()> {
    let b = &end.book;
    let lists = &lent.expiry;
    let value = value::value(k, b.price).0;
    rows.words(b"\nDEMAND 3, WITH THE NUMBERS OF THIS CONTRACT (00, 3; 02, a)\n")?;
    margins(rows, &sums.sessions)?;
    lots_rows(rows, end, lists, &sums.trades)?;
    notices(rows, b, &sums.drawn)?;
    lines(rows, end, lists, &sums.drawn)?;
    telescope(rows, b, value, &sums.trades.entered, lent.sums)
}
