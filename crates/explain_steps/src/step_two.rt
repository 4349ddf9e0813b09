// Step 2 in words: each settlement code closes what fails in it.
use crate::{codes, giving};
use explain_row::row;
use explain_row::row::Rows;
use method_account::in_codes::InCodes;
use method_columns::whole::Columns;
use rules::limits::{SECTION_PLACES, SETTLEMENT_CODES};
use std::io;
use std::io::Print;
use value::signed;

// A settlement code in which lots fail: D(c), who gives towards it, and what is left of it (01, Expiry, 2.1; 01, Expiry, 2.2).
fn code(
    rows: &Rows<impl Print>,
    columns: &Columns,
    failed: &[u64; SECTION_PLACES],
    held: usize,
    second: &InCodes,
    gap: i64,
    c: u8,
) -> io::Result<()> {
    if !codes::some_in(&columns.codes, failed, c) {
        return Ok(());
    }
    rows.say(b"code #, what fails\n", &[c as u64])?;
    codes::sections(rows, columns, failed, c)?;
    rows.say(
        b"    D(#) = ~#\n",
        &[c as u64, row::minus(gap), signed::size(gap)],
    )?;
    let rest = giving::givers(rows, columns, &second.giving, held, c, gap)?;
    rows.say(
        b"    left of D(#): ~#\n",
        &[c as u64, row::minus_left(gap, rest), rest],
    )
}

// All codes, by number (01, Expiry, 2.1; 01, Expiry, 2.2).
pub fn explain(
    rows: &Rows<impl Print>,
    columns: &Columns,
    failed: &[u64; SECTION_PLACES],
    held: usize,
    second: &InCodes,
) -> io::Result<()> {
    rows.words(
        b"\nStep 2. Each settlement code closes what fails in it (000, 2.2; 01, Expiry, step 2)\nD(c) is the sum of the failing positions of code c. Sound sections on the other side give, smallest\nfirst, then lower section code. Codes where no lots fail are not shown.\n",
    )?;
    for c in 0..SETTLEMENT_CODES {
        code(rows, columns, failed, held, second, second.gaps[c], c as u8)?;
    }
    Ok(())
}
