// Sections that give lots, in words, in the order in which they give.
use crate::codes;
use explain_row::row;
use explain_row::row::Rows;
use list_leaves::entries;
use method_account::giving::Giving;
use method_columns::whole::Columns;
use std::io;
use std::io::Print;
use value::signed;

// That two sections had the same lots, and the lower section code came first (01, Expiry, 2.2; 000, 2.2.2).
pub fn tie(rows: &Rows<impl Print>, own: u64, earlier: u64, i: usize) -> io::Result<()> {
    if own == earlier {
        return rows.say(
            b"    tie: @ has # lots too; the lower section code came first\n",
            &[i as u64, own],
        );
    }
    Ok(())
}

// The sections of settlement code c that may give, each with what it has, gives, and leaves of D(c); the answer is what is left in the end (01, Expiry, 2.2).
pub fn givers(
    rows: &Rows<impl Print>,
    columns: &Columns,
    giving: &Giving,
    held: usize,
    c: u8,
    gap: i64,
) -> io::Result<u64> {
    let mut left = signed::size(gap);
    let mut earlier = 0;
    for i in giving.order.iter().take(held) {
        let own = codes::lots_in(&columns.codes, &giving.lots, c, *i);
        if own == 0 {
            continue;
        }
        let gives = entries::nth(&giving.given, *i);
        left = left.saturating_sub(gives);
        tie(rows, own, earlier, *i)?;
        earlier = own;
        rows.say(
            b"    @ has # lots and gives #; ~# left of D(#)\n",
            &[
                *i as u64,
                own,
                gives,
                row::minus_left(gap, left),
                left,
                c as u64,
            ],
        )?;
    }
    Ok(left)
}
