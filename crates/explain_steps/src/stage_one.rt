// Stage one of a pass in words: buyers, elevators, and the pairs that they form.
ghost use Rattle.std.specs.Prelude.{◌≡◌};
ghost use Rattle.rules.specs.Words.{entry};

use crate::formed::Formed;
use explain_row::row::Rows;
use list_leaves::{changed, entries, found};
use method_passes::pairs::Pairs;
use rules::limits::{ELEVATORS, SECTION_PLACES};
use std::io;
use std::io::Print;

// A buyer's lots at an elevator.
#[derive(Drop)]
struct Pair {
    buyer: u8,
    elevator: u8,
    lots: u64,
}

// What is left of a pass's buyers and elevators.
#[derive(Drop)]
pub struct Left {
    pub bought: [u64; SECTION_PLACES],
    pub stocks: [u64; ELEVATORS],
}

// The buyers with lots (01, Expiry, 6.1).
pub fn buyers(rows: &Rows<impl Print>, bought: &[u64]) -> io::Result<()> {
    for (i, lots) in bought.iter().enumerate() {
        if 0 < *lots {
            rows.say(b"  buyer @ has # lots\n", &[i as u64, *lots])?;
        }
    }
    Ok(())
}

// The elevators with lots, what is drawn of the notices at each for this pass (01, Expiry, 6.2).
pub fn elevators(rows: &Rows<impl Print>, stocks: &[u64]) -> io::Result<()> {
    for (e, lots) in stocks.iter().enumerate() {
        if 0 < *lots {
            rows.say(b"  elevator # has # lots\n", &[e as u64, *lots])?;
        }
    }
    Ok(())
}

// That several buyers had most lots (01, Expiry, 6.4).
fn buyers_tied(rows: &Rows<impl Print>, tied: usize, lots: u64, buyer: u8) -> io::Result<()> {
    if tied < 2 {
        return Ok(());
    }
    rows.say(
        b"    tie: # buyers have # lots; the lowest section code, @, is taken\n",
        &[tied as u64, lots, buyer as u64],
    )
}

// That several elevators had most lots (01, Expiry, 6.4).
fn elevators_tied(rows: &Rows<impl Print>, tied: usize, lots: u64, elevator: u8) -> io::Result<()> {
    if tied < 2 {
        return Ok(());
    }
    rows.say(
        b"    tie: # elevators have # lots; the lowest number, #, is taken\n",
        &[tied as u64, lots, elevator as u64],
    )
}

// A pair: what its buyer and its elevator had, and what is left of both (01, Expiry, 6.2; 000, 2.5).
fn pair_row(rows: &Rows<impl Print>, number: u64, pair: Pair, left: &mut Left) -> io::Result<()> {
    let Pair {
        buyer,
        elevator,
        lots,
    } = pair;
    let has = entries::nth(&left.bought, buyer as usize);
    let stands = entries::nth(&left.stocks, elevator as usize);
    buyers_tied(rows, found::alike(&left.bought, has), has, buyer)?;
    elevators_tied(rows, found::alike(&left.stocks, stands), stands, elevator)?;
    let rest = changed::lower(&mut left.bought, buyer as usize, lots);
    let more = changed::lower(&mut left.stocks, elevator as usize, lots);
    let numbers = [
        number,
        buyer as u64,
        has,
        elevator as u64,
        stands,
        lots,
        rest,
        more,
    ];
    rows.say(
        b"  pair #: @ with # and elevator # with #: # lots; left # and #\n",
        &numbers,
    )
}

// Pair p of a pass.
fn pair_at(pairs: &Pairs, p: usize) -> Pair
    ensures { (result.buyer ≡ entry pairs.now.buyers p) × (result.elevator ≡ entry pairs.now.elevators p) × (result.lots ≡ entry pairs.now.lots p) }
{
    Pair {
        buyer: entries::nth(&pairs.buyers, p),
        elevator: entries::nth(&pairs.elevators, p),
        lots: entries::nth(&pairs.lots, p),
    }
}

// All pairs of a pass in the order in which they are formed (01, Expiry, 6.2).
pub fn pairs(
    rows: &Rows<impl Print>,
    pairs: &Pairs,
    left: &mut Left,
    formed: &mut Formed,
) -> io::Result<()> {
    rows.words(b"  stage one: the fullest buyer and the fullest elevator form a pair\n")?;
    for p in 0..pairs.count {
        formed.pairs = formed.pairs.saturating_add(1);
        pair_row(rows, formed.pairs, pair_at(pairs, p), left)?;
    }
    Ok(())
}
