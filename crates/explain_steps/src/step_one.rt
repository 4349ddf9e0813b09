// Step 1 in words: which sections fail, and why.
use explain_row::row;
use explain_row::row::Rows;
use list_leaves::entries;
use method_account::failing::Failed;
use rules::book::{Book, Section};
use std::io;
use std::io::Print;
use value::signed;

// The condition and the seller mark.
fn marks(rows: &Rows<impl Print>, s: Section) -> io::Result<()> {
    if s.met {
        rows.words(b", condition met")?;
    } else {
        rows.words(b", condition not met")?;
    }
    rows.seller_mark(s.seller)
}

// A reason that holds (01, Expiry, 1.1).
fn reason(rows: &Rows<impl Print>, holds: bool, text: &[u8]) -> io::Result<()> {
    if holds {
        return rows.words(text);
    }
    Ok(())
}

// Every reason that makes a section fail, or that it is sound (01, Expiry, 1.1; 000, 2.1).
fn verdict(rows: &Rows<impl Print>, s: Section, noticed: u64, failed: u64) -> io::Result<()> {
    let position = s.position.0;
    let own = signed::size(position);
    let short = position < 0;
    let unmet = !s.met;
    let unmarked = short & !s.seller;
    let unequal = short & (noticed != own);
    if !(unmet | unmarked | unequal) {
        return rows.words(b"    sound\n");
    }
    reason(rows, unmet, b"    fails: its condition is not met\n")?;
    reason(
        rows,
        unmarked,
        b"    fails: it is short without the seller mark\n",
    )?;
    reason(
        rows,
        unequal,
        b"    fails: it is short and its notices do not sum to its lots (ours)\n",
    )?;
    rows.say(b"    its # lots are terminated\n", &[failed])
}

// A section's row.
fn section(
    rows: &Rows<impl Print>,
    s: Section,
    i: usize,
    noticed: u64,
    failed: u64,
) -> io::Result<()> {
    let position = s.position.0;
    let numbers = [
        i as u64,
        s.settlement as u64,
        row::minus(position),
        signed::size(position),
        noticed,
    ];
    rows.say(b"@ code #, position ~#, lots in notices #", &numbers)?;
    marks(rows, s)?;
    rows.words(b"\n")?;
    verdict(rows, s, noticed, failed)
}

// Every section held (01, Expiry, 1.1 and 1.2).
pub fn explain(rows: &Rows<impl Print>, b: &Book, first: &Failed) -> io::Result<()> {
    rows.words(b"\nStep 1. Which sections fail (000, 2.1; 01, Expiry, step 1)\n")?;
    for (i, s) in b.sections.iter().take(b.held).enumerate() {
        let filed = entries::nth(&first.noticed, i);
        let lots = entries::nth(&first.failed, i);
        section(rows, *s, i, filed, lots)?;
    }
    Ok(())
}
