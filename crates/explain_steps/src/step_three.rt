// Step 3 in words: what is left open is closed over all settlement codes together.
use crate::{codes, giving};
use explain_row::row;
use explain_row::row::Rows;
use list_leaves::{changed, entries};
use method_account::across::Across;
use method_columns::whole::Columns;
use method_giving::chosen;
use rules::limits::{SECTION_PLACES, SETTLEMENT_CODES};
use std::io;
use std::io::Print;
use value::signed;

// Whether a code's sound net lets it give; the answer is how much (01, Expiry, 3.2; 000, 2.3).
fn code(rows: &Rows<impl Print>, net: i64, d: i64) -> io::Result<u64> {
    let size = signed::size(net);
    let numbers = [row::minus(net), size, size];
    if chosen::opposed(net, d) {
        rows.say(
            b"    the sound net is ~#, opposite to D: it may give #\n",
            &numbers,
        )?;
        return Ok(size);
    }
    rows.say(
        b"    the sound net is ~#, not opposite to D: it gives nothing\n",
        &numbers,
    )?;
    Ok(0)
}

// The sections of a code with sound lots left, and its net of them; the answer is what it may give (01, Expiry, 3.2).
fn code_rows(
    rows: &Rows<impl Print>,
    columns: &Columns,
    left: &[u64; SECTION_PLACES],
    c: u8,
    net: i64,
    d: i64,
) -> io::Result<u64> {
    if !codes::some_in(&columns.codes, left, c) {
        return Ok(0);
    }
    rows.say(b"code #, sound lots left\n", &[c as u64])?;
    codes::sections(rows, columns, left, c)?;
    code(rows, net, d)
}

// All codes, by number; the answer is what each may give (01, Expiry, 3.2).
fn net_rows(
    rows: &Rows<impl Print>,
    columns: &Columns,
    left: &[u64; SECTION_PLACES],
    third: &Across,
) -> io::Result<[u64; SETTLEMENT_CODES]> {
    let mut may = [0; SETTLEMENT_CODES];
    for c in 0..SETTLEMENT_CODES {
        may[c] = code_rows(rows, columns, left, c as u8, third.sound[c], third.d)?;
    }
    Ok(may)
}

// What a section has to give where its code may give anything.
fn offered(own: u64, cap: u64) -> u64 {
    if cap == 0 { 0 } else { own }
}

// Who gives towards D, in the order over all codes: what each has, gives, and leaves of D and of the net of its code, which `may` has at first. The answer is what
// is left of D (01, Expiry, 3.3; 000, 2.3.1).
fn givers(
    rows: &Rows<impl Print>,
    columns: &Columns,
    held: usize,
    third: &Across,
    may: &[u64; SETTLEMENT_CODES],
) -> io::Result<u64> {
    let mut caps = *may;
    let mut left = signed::size(third.d);
    let mut earlier = 0;
    for i in third.giving.order.iter().take(held) {
        let c = entries::nth(&columns.codes, *i);
        let own = offered(
            entries::nth(&third.giving.lots, *i),
            entries::nth(may, c as usize),
        );
        if own == 0 {
            continue;
        }
        let gives = entries::nth(&third.giving.given, *i);
        left = left.saturating_sub(gives);
        let net = changed::lower(&mut caps, c as usize, gives);
        giving::tie(rows, own, earlier, *i)?;
        earlier = own;
        let numbers = [
            *i as u64,
            c as u64,
            own,
            gives,
            row::minus_left(third.d, left),
            left,
            net,
            c as u64,
        ];
        rows.say(
            b"    @ of code # has # lots and gives #; ~# left of D, # of the net of code #\n",
            &numbers,
        )?;
    }
    Ok(left)
}

// D, the codes that may give, and who gives (01, Expiry, 3.1; 01, Expiry, 3.2; 01, Expiry, 3.3).
pub fn explain(
    rows: &Rows<impl Print>,
    columns: &Columns,
    left: &[u64; SECTION_PLACES],
    held: usize,
    third: &Across,
) -> io::Result<()> {
    let d = third.d;
    let size = signed::size(d);
    rows.words(
        b"\nStep 3. What is left is closed over all codes together (000, 2.3; 01, Expiry, step 3)\nD is what is left of all D(c), with sign. Codes whose sound net after step 2 is opposite to D give,\neach at most its net: their sections on the side of that net, over all such codes together,\nsmallest first, then lower section code. Codes with no sound lots left are not shown.\n",
    )?;
    rows.say(b"D = ~#\n", &[row::minus(d), size])?;
    if size == 0 {
        return rows.words(b"nothing is to be closed\n");
    }
    let may = net_rows(rows, columns, left, third)?;
    rows.words(b"who gives\n")?;
    let rest = givers(rows, columns, held, third, &may)?;
    rows.say(b"left of D: ~#\n", &[row::minus_left(d, rest), rest])
}
