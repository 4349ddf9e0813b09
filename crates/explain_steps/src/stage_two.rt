// Stage two of a pass in words: pairs, notices, and the lines that they form.
ghost use Rattle.std.specs.Prelude.{◌≡◌};
ghost use Rattle.rules.specs.Words.{entry};

use crate::formed::Formed;
use explain_row::row::Rows;
use list_leaves::{changed, entries, found};
use method_columns::whole::Columns;
use method_passes::pairs::Pairs;
use method_passes::register::Register;
use method_register::chosen;
use rules::limits::{NOTICE_PLACES, PAIR_PLACES};
use std::io;
use std::io::Print;

// Who buys from whom, where, how many lots.
#[derive(Clone, Copy)]
struct Line {
    buyer: u8,
    elevator: u8,
    seller: u8,
    lots: u64,
}

// What is left of a pass's pairs, and of what is drawn for it of each notice.
#[derive(Drop)]
pub struct Left {
    pub pairs: [u64; PAIR_PLACES],
    pub drawn: [u64; NOTICE_PLACES],
}

// That several pairs had most lots: the lowest buyer's section code, and of one buyer's pairs the lowest elevator (01, Expiry, 6.4).
fn pairs_tied(
    rows: &Rows<impl Print>,
    pairs: &Pairs,
    left: &[u64; PAIR_PLACES],
    lots: u64,
    line: Line,
) -> io::Result<()> {
    let tied = found::alike(left, lots);
    if tied < 2 {
        return Ok(());
    }
    let buyer = line.buyer as u64;
    let elevator = line.elevator as u64;
    let mut own = [0; PAIR_PLACES];
    chosen::lots_in_code(&pairs.buyers, left, line.buyer, &mut own);
    let same = found::alike(&own, lots);
    if same == tied {
        return rows.say(
            b"    tie: # pairs of @ have # lots; the lowest elevator, #, is taken\n",
            &[tied as u64, buyer, lots, elevator],
        );
    }
    rows.say(
        b"    tie: # pairs have # lots; the lowest buyer section code, @, is taken\n",
        &[tied as u64, lots, buyer],
    )?;
    if same < 2 {
        return Ok(());
    }
    rows.say(
        b"    tie: # of them are of @; the lowest elevator, #, is taken\n",
        &[same as u64, buyer, elevator],
    )
}

// That several notices at the elevator had most lots (01, Expiry, 6.4).
fn notices_tied(
    rows: &Rows<impl Print>,
    stands: &[u8; NOTICE_PLACES],
    drawn: &[u64; NOTICE_PLACES],
    lots: u64,
    line: Line,
) -> io::Result<()> {
    let mut there = [0; NOTICE_PLACES];
    chosen::lots_in_code(stands, drawn, line.elevator, &mut there);
    let tied = found::alike(&there, lots);
    if tied < 2 {
        return Ok(());
    }
    rows.say(
        b"    tie: # notices at elevator # have # lots; the lowest seller section code, @, is taken\n",
        &[tied as u64, line.elevator as u64, lots, line.seller as u64],
    )
}

// That a line is taken out: buyer and seller are one participant (02, a, 1 and 3).
fn taken_out(rows: &Rows<impl Print>, line: Line, persons: &[u32]) -> io::Result<()> {
    let person = entries::nth(persons, line.buyer as usize);
    if person != entries::nth(persons, line.seller as usize) {
        return Ok(());
    }
    let numbers = [
        line.buyer as u64,
        line.seller as u64,
        person as u64,
        line.lots,
    ];
    rows.say(
        b"    taken out (02, a; 001, 3.4): @ and @ are both participant #; # lots lapse for each\n",
        &numbers,
    )
}

// A line, formed of notice k: what its pair and its notice had, and what is left of both (01, Expiry, 6.3; 000, 2.5).
fn line_row(
    rows: &Rows<impl Print>,
    number: u64,
    line: Line,
    k: usize,
    pairs: &Pairs,
    columns: &Columns,
    left: &mut Left,
) -> io::Result<()> {
    let p = found::place_of(&pairs.buyers, &pairs.elevators, line.buyer, line.elevator);
    let has = entries::nth(&left.pairs, p);
    let offered = entries::nth(&left.drawn, k);
    pairs_tied(rows, pairs, &left.pairs, has, line)?;
    notices_tied(rows, &columns.stands, &left.drawn, offered, line)?;
    let rest = changed::lower(&mut left.pairs, p, line.lots);
    let more = changed::lower(&mut left.drawn, k, line.lots);
    let numbers = [
        number,
        line.buyer as u64,
        line.elevator as u64,
        has,
        k as u64,
        line.seller as u64,
        offered,
        line.lots,
        rest,
        more,
    ];
    rows.say(
        b"  line #: @ at elevator # with #, notice # of @ with #: # lots; left # and #\n",
        &numbers,
    )
}

// Line n of a pass.
fn line_at(g: &Register, n: usize) -> Line
    ensures { (result.buyer ≡ entry g.now.buyers n) × (result.elevator ≡ entry g.now.elevators n) × (result.seller ≡ entry g.now.sellers n) × (result.lots ≡ entry g.now.lots n) }
{
    Line {
        buyer: entries::nth(&g.buyers, n),
        elevator: entries::nth(&g.elevators, n),
        seller: entries::nth(&g.sellers, n),
        lots: entries::nth(&g.lots, n) as u64,
    }
}

// The next line of a pass; its number over all passes and what it draws of its notice are added up in `formed` (01, Expiry, 6.3; 01, Calls, 9).
fn next_line(
    rows: &Rows<impl Print>,
    line: Line,
    pairs: &Pairs,
    columns: &Columns,
    left: &mut Left,
    formed: &mut Formed,
) -> io::Result<()> {
    let k = found::place_of(
        &columns.selling,
        &columns.stands,
        line.seller,
        line.elevator,
    );
    formed.lines = formed.lines.saturating_add(1);
    changed::raise(&mut formed.drawn, k, line.lots);
    line_row(rows, formed.lines, line, k, pairs, columns, left)?;
    taken_out(rows, line, &columns.persons)
}

// All lines of a pass in the order in which they are formed (01, Expiry, 6.3).
pub fn lines(
    rows: &Rows<impl Print>,
    pairs: &Pairs,
    g: &Register,
    columns: &Columns,
    left: &mut Left,
    formed: &mut Formed,
) -> io::Result<()> {
    rows.words(
        b"  stage two: the fullest pair and the fullest notice at its elevator form a line\n",
    )?;
    for n in 0..g.count {
        next_line(rows, line_at(g, n), pairs, columns, left, formed)?;
    }
    Ok(())
}
