// The notices.
ghost use Rattle.std.specs.Prelude.{◌≡◌, ◌+◌, ◌*◌, ◌≤◌};
ghost use Rattle.rules.specs.Book.{elevators, filed_notices, notice_good, blank_notice, notice_blank, notices_good};
ghost use Rattle.rules.specs.Calls.{notice_filed};

use crate::keys;
use rules::book::{Book, Notice};
use rules::limits::{ELEVATOR_MOST, ELEVATORS, NOTICE_LOTS_MOST};
use rules::units::Lots;

// Whether a notice keeps its limits (01, Notice, 1).
fn notice_good(n: Notice, held: usize) -> bool
    ensures { result ≡ notice_good held n }
{
    if held <= (n.section as usize) {
        return false;
    }
    if ELEVATOR_MOST < n.elevator {
        return false;
    }
    let lots = n.lots.0;
    if lots < 1 {
        return false;
    }
    lots <= (NOTICE_LOTS_MOST as i64)
}

// A place of no notice (01, Book, 2).
pub fn blank() -> Notice
    ensures { result ≡ blank_notice }
{
    Notice {
        section: 0,
        elevator: 0,
        lots: Lots(0),
    }
}

pub fn notice_blank(n: Notice) -> bool
    ensures { result ≡ notice_blank n }
{
    n == blank()
}

// Whether a notice filed is of the section at the elevator (01, Notice, 1).
pub fn notice_filed(b: Book, section: u8, elevator: u8) -> bool
    requires { b.filed ≤ 256 }
    ensures { result ≡ notice_filed section elevator (filed_notices b) }
{
    b.notices
        .iter()
        .take(b.filed)
        .any(|n| (section == n.section) & (elevator == n.elevator))
}

// A section's number and an elevator's in one.
fn key(section: u8, elevator: u8) -> u64
    ensures { result ≡ section * elevators + elevator }
{
    let base = ELEVATORS as u64;
    (section as u64) * base + (elevator as u64)
}

// Whether every notice filed keeps its limits, and no two are of one section at one elevator, in one walk over the notices (01, Notice, 1).
pub fn notices_good(b: Book) -> bool
    requires { b.filed ≤ 256 }
    ensures { result ≡ notices_good b }
{
    let filed = b.filed;
    let mut places = [0; 256];
    for i in 0..filed {
        let n = b.notices[i];
        if !notice_good(n, b.held) {
            return false;
        }
        places[i] = key(n.section, n.elevator);
    }
    keys::apart(&places[..filed])
}
