// Step 4 in words: what goes outside, and what stays inside.
use crate::{codes, giving};
use explain_row::row;
use explain_row::row::Rows;
use list_leaves::entries;
use method_account::outside::Outside;
use method_columns::whole::Columns;
use rules::limits::{SECTION_PLACES, SETTLEMENT_CODES};
use std::io;
use std::io::Print;
use value::signed;

// That a section is split (01, Expiry, 4.1).
fn split(rows: &Rows<impl Print>, far: u64, near: u64, i: usize) -> io::Result<()> {
    if (0 < far) & (0 < near) {
        return rows.say(
            b"    @ is split here, where the net is reached\n",
            &[i as u64],
        );
    }
    Ok(())
}

// The sections of code c on the side of its net, the largest first: what of each is marked outside, and what is left of the net (01, Expiry, 4.1; 000, 2.4).
fn marked_rows(
    rows: &Rows<impl Print>,
    columns: &Columns,
    held: usize,
    fourth: &Outside,
    net: i64,
    c: u8,
) -> io::Result<()> {
    let mut left = signed::size(net);
    let mut earlier = 0;
    for i in fourth.giving.order.iter().take(held) {
        let own = codes::lots_in(&columns.codes, &fourth.giving.lots, c, *i);
        if own == 0 {
            continue;
        }
        let far = entries::nth(&fourth.giving.given, *i);
        let near = entries::nth(&fourth.near, *i);
        left = left.saturating_sub(far);
        giving::tie(rows, own, earlier, *i)?;
        earlier = own;
        rows.say(
            b"    @ has # lots: # outside, # inside; # left of the net\n",
            &[*i as u64, own, far, near, left],
        )?;
        split(rows, far, near, *i)?;
    }
    Ok(())
}

// The other sections of code c: all their lots stay inside (01, Expiry, 4.2).
fn unmarked_rows(
    rows: &Rows<impl Print>,
    columns: &Columns,
    kept: &[u64; SECTION_PLACES],
    fourth: &Outside,
    c: u8,
) -> io::Result<()> {
    for (i, marked) in fourth.giving.lots.iter().enumerate() {
        let own = codes::lots_in(&columns.codes, kept, c, i);
        if (0 < own) & (*marked == 0) {
            rows.say(b"    @ has # lots: all inside\n", &[i as u64, own])?;
        }
    }
    Ok(())
}

// A settlement code that has lots left: its net, and each of its sections (01, Expiry, 4.1; 01, Expiry, 4.2).
fn code(
    rows: &Rows<impl Print>,
    columns: &Columns,
    kept: &[u64; SECTION_PLACES],
    held: usize,
    fourth: &Outside,
    net: i64,
    c: u8,
) -> io::Result<()> {
    if !codes::some_in(&columns.codes, kept, c) {
        return Ok(());
    }
    rows.say(
        b"code # has the net ~#\n",
        &[c as u64, row::minus(net), signed::size(net)],
    )?;
    marked_rows(rows, columns, held, fourth, net, c)?;
    unmarked_rows(rows, columns, kept, fourth, c)
}

// All codes, by number (01, Expiry, 4.1; 01, Expiry, 4.2).
pub fn explain(
    rows: &Rows<impl Print>,
    columns: &Columns,
    kept: &[u64; SECTION_PLACES],
    held: usize,
    fourth: &Outside,
) -> io::Result<()> {
    rows.words(
        b"\nStep 4. What goes outside, and what stays inside (000, 2.4; 01, Expiry, step 4)\nSections on the side of their code's net are marked outside, largest first, then lower section\ncode, until the net is reached; the last one is split there (ours). The rest is inside.\n",
    )?;
    for c in 0..SETTLEMENT_CODES {
        code(rows, columns, kept, held, fourth, fourth.nets[c], c as u8)?;
    }
    Ok(())
}
