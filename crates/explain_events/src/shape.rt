// A file, or an event, that does not read: what of its bytes is wrong.
ghost use Rattle.std.specs.Prelude.{◌≤◌};

use explain_row::row::Rows;
use file_operand::{Kind, bytes};
use list_leaves::entries;
use rules::limits::{EVENTS_MOST, OPERAND_BYTES, SIZES_BYTES};
use std::io;
use std::io::Print;

// A file of the wrong length, or of too many events (01, Reading, 1).
pub fn file(rows: &Rows<impl Print>, file: &[u8]) -> io::Result<()> {
    let length = file.len();
    if length < 16 {
        return rows.say(
            b"refusal 25: the file has # bytes, and its sizes alone have 16\n",
            &[length as u64],
        );
    }
    let n = bytes::word(file, 0);
    if EVENTS_MOST < (n as usize) {
        return rows.say(b"refusal 25: # events are above 3800\n", &[n as u64]);
    }
    let asked = 16 + 17 * (n as u64);
    if 64_616 < length {
        return rows.say(
            b"refusal 25: # events have # bytes, and the file has more than 64616\n",
            &[n as u64, asked],
        );
    }
    rows.say(
        b"refusal 25: # events have # bytes, and the file has #\n",
        &[n as u64, asked, length as u64],
    )
}

// Whether a byte of an operand is listed for a kind of event (01, File, 4 and 5 and 6 and 7 and 8 and 9).
fn listed(kind: Kind, byte: usize) -> bool {
    match kind {
        Kind::Section => matches!(byte, 0..=8 | 10..=13),
        Kind::Trade => matches!(byte, 0..=1 | 4..=11),
        Kind::Session => matches!(byte, 4..=7),
        Kind::Condition => matches!(byte, 0..=1),
        Kind::Notice => matches!(byte, 0..=1 | 8..=11),
        Kind::Expiry => false,
    }
}

// What is wrong with a byte of an operand, if anything: it is not listed and not zero, or it is a mark above 1 (01, Reading, 1).
fn wrong(rows: &Rows<impl Print>, kind: Kind, byte: usize, value: u8) -> io::Result<()> {
    let marked = (kind == Kind::Section) | (kind == Kind::Condition);
    if marked & (byte == 1) & (1 < value) {
        return rows.say(
            b"    refusal 26: the mark at byte # of its operand is #, above 1\n",
            &[byte as u64, value as u64],
        );
    }
    if listed(kind, byte) | (value == 0) {
        return Ok(());
    }
    rows.say(
        b"    refusal 26: byte # of its operand is # and should be zero\n",
        &[byte as u64, value as u64],
    )
}

// Every byte of an operand that is wrong; it starts at a place of the file (01, Reading, 1).
fn operand(rows: &Rows<impl Print>, file: &[u8], kind: Kind, from: usize) -> io::Result<()>
    requires { from ≤ 100_000 }
{
    for byte in 0..OPERAND_BYTES {
        wrong(rows, kind, byte, entries::nth(file, from + byte))?;
    }
    Ok(())
}

// An event that does not read; there are n (01, Reading, 1).
pub fn event(rows: &Rows<impl Print>, file: &[u8], n: usize, place: usize) -> io::Result<()> {
    if EVENTS_MOST < n {
        return Ok(());
    }
    if EVENTS_MOST < place {
        return Ok(());
    }
    let byte = entries::nth(file, SIZES_BYTES + place);
    rows.say(b"# event of kind #\n", &[place as u64, byte as u64])?;
    let Ok(kind) = Kind::try_from(byte) else {
        return rows.say(
            b"    refusal 26: kind # is none of 1 to 6\n",
            &[byte as u64],
        );
    };
    operand(rows, file, kind, SIZES_BYTES + n + OPERAND_BYTES * place)
}
