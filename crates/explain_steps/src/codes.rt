// Lots by settlement code.
ghost use Rattle.std.specs.Prelude.{◌≡◌, cond, eqb};
ghost use Rattle.rules.specs.Words.{entry};

use explain_row::row;
use explain_row::row::Rows;
use list_leaves::entries;
use method_columns::whole::Columns;
use rules::limits::SECTION_PLACES;
use std::io;
use std::io::Print;

// The lots of a section where its settlement code is c, and 0 else.
pub fn lots_in(codes: &[u8], lots: &[u64], c: u8, i: usize) -> u64
    ensures { result ≡ cond (eqb (entry codes.now i) c) (entry lots.now i) 0 }
{
    if entries::nth(codes, i) == c {
        return entries::nth(lots, i);
    }
    0
}

// Whether a section of settlement code c has lots.
pub fn some_in(codes: &[u8], lots: &[u64], c: u8) -> bool {
    codes
        .iter()
        .zip(lots)
        .any(|(code, own)| (*code == c) & (0 < *own))
}

// What each section of settlement code c has, with the sign of its position; the sum with sign is the code's net (01, Expiry, 2.1; 000, 2.2.1).
pub fn sections(
    rows: &Rows<impl Print>,
    columns: &Columns,
    lots: &[u64; SECTION_PLACES],
    c: u8,
) -> io::Result<()> {
    for (i, position) in columns.positions.iter().enumerate() {
        let own = lots_in(&columns.codes, lots, c, i);
        if 0 < own {
            rows.say(b"    @ has ~#\n", &[i as u64, row::minus(*position), own])?;
        }
    }
    Ok(())
}
