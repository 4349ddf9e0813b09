// Step 3: what is left open is closed over all settlement codes together.
ghost use Rattle.std.specs.Prelude.{ℕ, List, take, length};
ghost use Rattle.rules.specs.declared.book.Section.{Section};
ghost use Rattle.method_laws.specs.Columns.{Small};
ghost use Rattle.method_steps.specs.Held.{Lent, Of};
ghost use Rattle.method_account.specs.Steps.{InCodesOf, Closed, AcrossOf};

use crate::giving;
use crate::giving::Giving;
use crate::in_codes::InCodes;
use method_giving::lists;
use method_holding::nets;
use method_steps::across;
use method_steps::columns::SectionColumns;
use rules::limits::{SECTION_PLACES, SETTLEMENT_CODES};

// D, the net of each settlement code's sound lots, what the sections give towards D, and what is kept.
#[derive(Clone, Copy)]
pub struct Across {
    pub d: i64,
    pub sound: [i64; SETTLEMENT_CODES],
    pub giving: Giving,
    pub kept: [u64; SECTION_PLACES],
}

// D closed, after the settlement codes (01, Expiry, 3.1; 01, Expiry, 3.2; 01, Expiry, 3.3).
pub fn close_across(columns: SectionColumns<'_>, before: InCodes) -> Across
    requires { Lent columns (length columns.codes.now) × Closed (length columns.codes.now) before }
    ensures across_of { (ss : List Section) (failed : List ℕ) → Of ss columns.entry → InCodesOf (length columns.entry.codes.now) ss failed before → AcrossOf (length columns.entry.codes.now) ss failed result }
    ensures small { Small (take (length columns.entry.codes.now) result.kept) }
{
    let codes = columns.codes;
    let positions = columns.positions;
    let held = codes.len();
    let gaps = before.gaps;
    let gave = before.giving.given;
    let mut kept = before.left;
    let mut net = [0; SETTLEMENT_CODES];
    let mut sound = [0; SETTLEMENT_CODES];
    nets::nets(codes, positions, &gave[..held], &mut net);
    let d = across::left_open(&gaps, &net);
    nets::nets(codes, positions, &kept[..held], &mut sound);
    let giving = giving::over_codes(columns, d, &kept[..held]);
    let given = giving.given;
    lists::less(&mut kept[..held], &given[..held]);
    Across {
        d,
        sound,
        giving,
        kept,
    }
}
