// Step 6 in words: the passes, their pairs and their lines.
use crate::formed::Formed;
use crate::{stage_one, stage_two};
use explain_row::row::Rows;
use method_account::passes::Pass;
use method_columns::whole::Columns;
use std::io;
use std::io::Print;

// What stands before the passes (01, Expiry, 6.4).
pub fn head(rows: &Rows<impl Print>) -> io::Result<()> {
    rows.words(
        b"\nStep 6. Pairs and lines, inside by code number, then outside (000, 2.5; 01, Expiry, step 6)\nBuyers have their lots of step 4, elevators the sums of what step 5 draws at them. Most lots first.\nTies (000 is silent, ours): lower buyer section code, lower elevator, lower seller section code.\nA tie row stands above the pair or line that it decides. Codes with nothing inside have no pass.\n",
    )
}

// A pass: its buyers and elevators, then both stages; what it forms is added up in `formed` (01, Expiry, 6.1).
fn pass(
    rows: &Rows<impl Print>,
    p: &Pass,
    columns: &Columns,
    formed: &mut Formed,
) -> io::Result<()> {
    let pairs = &p.stages.pairs;
    let mut parties = stage_one::Left {
        bought: p.buyers,
        stocks: p.stages.stocks,
    };
    let mut offers = stage_two::Left {
        pairs: pairs.lots,
        drawn: p.drawn,
    };
    stage_one::buyers(rows, &p.buyers)?;
    stage_one::elevators(rows, &p.stages.stocks)?;
    stage_one::pairs(rows, pairs, &mut parties, formed)?;
    stage_two::lines(rows, pairs, &p.stages.lines, columns, &mut offers, formed)
}

// Whether a pass forms anything (01, Expiry, 6.2).
fn forms(p: &Pass) -> bool {
    0 < p.stages.pairs.count
}

// The inside pass of a settlement code, passed over where it forms nothing (01, Expiry, 6.1).
pub fn inside(
    rows: &Rows<impl Print>,
    p: &Pass,
    c: usize,
    columns: &Columns,
    formed: &mut Formed,
) -> io::Result<()> {
    if !forms(p) {
        return Ok(());
    }
    rows.say(b"Inside pass of code #\n", &[c as u64])?;
    pass(rows, p, columns, formed)
}

// The outside pass (01, Expiry, 6.1).
pub fn outside(
    rows: &Rows<impl Print>,
    p: &Pass,
    columns: &Columns,
    formed: &mut Formed,
) -> io::Result<()> {
    if !forms(p) {
        return rows.words(b"Outside pass: nothing is left to form\n");
    }
    rows.words(b"Outside pass\n")?;
    pass(rows, p, columns, formed)
}

// How many pairs and lines were formed, and how many lines are kept (01, Expiry, 7; 02, a, 6).
pub fn end(rows: &Rows<impl Print>, formed: &Formed, kept: usize) -> io::Result<()> {
    rows.say(
        b"pairs formed: #; lines formed: #; lines kept: #\n",
        &[formed.pairs, formed.lines, kept as u64],
    )
}
