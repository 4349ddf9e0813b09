// The contract in words: lot, W, R and K; or what of them is beyond its limits.
use explain_row::rounding;
use explain_row::row::Rows;
use rules::events::FileSizes;
use rules::refusal::Refusal;
use std::io;
use std::io::Print;

// What the text is, and the papers that it names.
pub fn head(rows: &Rows<impl Print>) -> io::Result<()> {
    rows.words(
        b"EXPLANATION OF ONE WHEAT CONTRACT, FROM ITS EVENT FILE\nPapers: 00 the demands, 01 the scope, 02 the change requests, 000 the method, 001 the specification.\nOf 02, requests a and c bear on a contract. Amounts are kopecks, prices kopecks for a tonne.\nA position is lots bought less sold; 'code' alone is a settlement code.\n",
    )
}

// Lot, W, R, and how K comes of them (01, Value, 1 and 2).
pub fn terms(rows: &Rows<impl Print>, sizes: FileSizes) -> io::Result<()> {
    let FileSizes { events, lot, w, r } = sizes;
    rows.words(
        b"\nTHE CONTRACT (01, Value of a price; 001, 2.1.3; 02, c)\nK and V are rounded: below half the divisor the quotient stands, at half or above it is one more.\n",
    )?;
    rows.say(
        b"events #, lot # tonnes, W (value of the price step) #, R (price step) #; K = 100000*W/R\n",
        &[events as u64, lot as u64, w as u64, r as u64],
    )?;
    rounding::factor(rows, w, r)
}

// Why a contract does not open (01, Opening, 1).
pub fn refusal(rows: &Rows<impl Print>, refusal: Refusal, sizes: FileSizes) -> io::Result<()> {
    let FileSizes { lot, w, r, .. } = sizes;
    match refusal {
        Refusal::BadLot => rows.say(
            b"refusal 2: lot # is outside 1 to 1000 tonnes\n",
            &[lot as u64],
        ),
        Refusal::BadStep => rows.say(
            b"refusal 3: W # or R # is outside 1 to 1000000\n",
            &[w as u64, r as u64],
        ),
        _ => rows.say(
            b"refusal 4: K # is outside 1 to 10000000\n",
            &[value::factor(w, r)],
        ),
    }
}

// What stands before the listing (01, Program, 1 and 2).
pub fn listing_head(rows: &Rows<impl Print>) -> io::Result<()> {
    rows.words(
        b"\nTHE REGISTER AND THE SECTIONS, AS THE LISTING HAS THEM (01, Event file; 02, a)\nLines kept: buyer, elevator, seller, lots, tonnes.\nSections: section code, delivered, terminated, lapsed, sum of its margins.\n",
    )
}
