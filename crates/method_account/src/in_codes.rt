// Step 2: each settlement code is closed by itself.
ghost use Rattle.std.specs.Prelude.{List, length};
ghost use Rattle.rules.specs.declared.book.Section.{Section};
ghost use Rattle.method_laws.specs.Columns.{Small};
ghost use Rattle.method_steps.specs.Held.{Lent, Of};
ghost use Rattle.method_account.specs.Steps.{InCodesOf, Closed};

use crate::giving;
use crate::giving::Giving;
use method_giving::lists;
use method_holding::nets;
use method_steps::columns::SectionColumns;
use rules::limits::{SECTION_PLACES, SETTLEMENT_CODES};

// D(c) of each settlement code, what the sound sections give towards it, and what is left of them.
#[derive(Clone, Copy)]
pub struct InCodes {
    pub gaps: [i64; SETTLEMENT_CODES],
    pub giving: Giving,
    pub left: [u64; SECTION_PLACES],
}

// The settlement codes closed, given what fails (01, Expiry, 2.1; 01, Expiry, 2.2).
pub fn close_codes(columns: SectionColumns<'_>, failed: &[u64]) -> InCodes
    requires { Lent columns (length failed.now) × Small failed.now }
    ensures in_codes_of { (ss : List Section) → Of ss columns.entry → InCodesOf (length failed.now) ss failed.now result }
    ensures closed { Closed (length failed.now) result }
{
    let held = failed.len();
    let mut gaps = [0; SETTLEMENT_CODES];
    let mut left = [0; SECTION_PLACES];
    nets::nets(columns.codes, columns.positions, failed, &mut gaps);
    lists::magnitudes(columns.positions, &mut left[..held]);
    lists::less(&mut left[..held], failed);
    let giving = giving::by_code(columns, &gaps, false, &left[..held]);
    let given = giving.given;
    lists::less(&mut left[..held], &given[..held]);
    InCodes { gaps, giving, left }
}
