// Step 5 in words: what is drawn of the notices.
use explain_row::row::Rows;
use list_leaves::entries;
use method_account::drawing::Drawn;
use method_columns::whole::Columns;
use rules::book::{Book, Notice};
use rules::limits::SECTION_PLACES;
use std::io;
use std::io::Print;
use value::signed;

// What is drawn of a short section's notice: inside, outside and terminated; of a section that fails nothing is drawn (01, Expiry, 5.1).
fn drawn(
    rows: &Rows<impl Print>,
    lots: u64,
    inside: u64,
    beyond: u64,
    failed: u64,
) -> io::Result<()> {
    if 0 < failed {
        return rows.words(b": none is drawn, the section fails\n");
    }
    let terminated = lots.saturating_sub(inside).saturating_sub(beyond);
    rows.say(
        b": # inside, # outside, # terminated\n",
        &[inside, beyond, terminated],
    )
}

// Notice k, with what is drawn of it; one of a section that is not short is passed over (01, Expiry, 5.1; 01, Expiry, 6.5).
fn notice(
    rows: &Rows<impl Print>,
    n: Notice,
    k: usize,
    columns: &Columns,
    failed: &[u64; SECTION_PLACES],
    fifth: &Drawn,
) -> io::Result<()> {
    let i = n.section as usize;
    let lots = signed::size(n.lots.0);
    let numbers = [k as u64, n.section as u64, n.elevator as u64, lots];
    if 0 <= entries::nth(&columns.positions, i) {
        return rows.say(
            b"notice #: @ at elevator #, # lots: ignored, the section is not short\n",
            &numbers,
        );
    }
    rows.say(b"notice #: @ at elevator #, # lots", &numbers)?;
    let inside = entries::nth(&fifth.inside, k);
    let beyond = entries::nth(&fifth.beyond, k);
    drawn(rows, lots, inside, beyond, entries::nth(failed, i))
}

// Every notice, in filing order (01, Expiry, 5.1).
pub fn explain(
    rows: &Rows<impl Print>,
    b: &Book,
    columns: &Columns,
    failed: &[u64; SECTION_PLACES],
    fifth: &Drawn,
) -> io::Result<()> {
    rows.words(
        b"\nStep 5. What is drawn of the notices (000 is silent, ours; 01, Expiry, step 5)\nA short section's notices are drawn in filing order: its inside lots, then its outside lots; the\nterminated come off the end.\n",
    )?;
    for (k, n) in b.notices.iter().take(b.filed).enumerate() {
        notice(rows, *n, k, columns, failed, fifth)?;
    }
    Ok(())
}
