// The sections.
ghost use Rattle.std.specs.Prelude.{◌≡◌, ◌≤◌};
ghost use Rattle.rules.specs.Book.{held_sections, section_good, blank_section, section_blank, sections_good};
ghost use Rattle.rules.specs.Calls.{section_code_held};

use crate::keys;
use rules::book::{Book, Section};
use rules::limits::{BASIS_CARRIED, BASIS_TRADE, POSITION_MOST, SETTLEMENT_MOST};
use rules::units::{Kopecks, Lots};
use value::signed;

// Whether a section keeps its limits (01, Book, 3 and 4).
fn section_good(s: Section, trades: u32) -> bool
    requires { trades ≤ 2_000 }
    ensures { result ≡ section_good trades s }
{
    if SETTLEMENT_MOST < s.settlement {
        return false;
    }
    let code = s.code;
    if !section_code::code_good(code) {
        return false;
    }
    let position = s.position.0;
    if !signed::within(position, POSITION_MOST) {
        return false;
    }
    let basis = s.basis.0;
    signed::within(basis, BASIS_CARRIED + BASIS_TRADE * (trades as u64))
}

// A place of no section (01, Book, 2).
pub fn blank() -> Section
    ensures { result ≡ blank_section }
{
    Section {
        settlement: 0,
        code: [0; 7],
        participant: 0,
        seller: false,
        met: false,
        position: Lots(0),
        basis: Kopecks(0),
    }
}

pub fn section_blank(s: Section) -> bool
    ensures { result ≡ section_blank s }
{
    s == blank()
}

// Whether a section held has the code (01, Section, 1).
pub fn code_held(b: Book, code: [u8; 7]) -> bool
    requires { b.held ≤ 128 }
    ensures { result ≡ section_code_held code (held_sections b) }
{
    b.sections
        .iter()
        .take(b.held)
        .any(|s| section_code::same_code(code, s.code))
}

// Whether every section held keeps its limits, no two codes are alike, and positions sum to zero and bases too, in one walk over the
// sections (01, Book, 3 and 4).
pub fn sections_good(b: Book) -> bool
    requires { (b.held ≤ 128) × (b.trades ≤ 2_000) }
    ensures { result ≡ sections_good b }
{
    let held = b.held;
    let mut codes = [0; 128];
    let mut positions: i64 = 0;
    let mut bases: i64 = 0;
    for i in 0..held {
        let s = b.sections[i];
        if !section_good(s, b.trades) {
            return false;
        }
        let code = s.code;
        let position = s.position.0;
        let basis = s.basis.0;
        codes[i] = section_code::key(code);
        positions = signed::sum(positions, position);
        bases = signed::sum(bases, basis);
    }
    if !keys::apart(&codes[..held]) {
        return false;
    }
    if !signed::within(positions, 0) {
        return false;
    }
    signed::within(bases, 0)
}
