// Who may give in a step, in which order, and what each gives.
ghost use Rattle.std.specs.Prelude.{List, ◌≡◌, false, take, length};
ghost use Rattle.rules.specs.declared.book.Section.{Section};
ghost use Rattle.rules.specs.Expiry.Across;
ghost use Rattle.method_laws.specs.Columns.{AtMost, NetsSmall, Small};
ghost use Rattle.method_laws.specs.Giving.{given_by_size};
ghost use Rattle.method_steps.specs.Held.{Lent, Of};
ghost use Rattle.method_account.specs.Gives.{may_give, may_give_across, Gives};

use method_giving::chosen;
use method_steps::columns::SectionColumns;
use method_steps::{across, in_codes};
use rules::limits::SECTION_PLACES;

// The lots that each section has to give in a step, 0 for all that give nothing there; all sections in the order of the step; what each gives.
#[derive(Clone, Copy)]
pub struct Giving {
    pub lots: [u64; SECTION_PLACES],
    pub order: [usize; SECTION_PLACES],
    pub given: [u64; SECTION_PLACES],
}

// Each settlement code by itself: towards D(c), the smaller first, or outside where `outside` says so, the larger first (01, Expiry, 2.2; 01, Expiry, 4.1).
pub fn by_code(columns: SectionColumns<'_>, numbers: &[i64], outside: bool, kept: &[u64]) -> Giving
    requires { Lent columns (length kept.now) × (length numbers.now ≡ 64) × NetsSmall numbers.now }
    ensures gives { (ss : List Section) → Of ss columns.entry → Gives (length kept.now) outside ss (may_give outside ss numbers.now kept.now) (given_by_size outside ss numbers.now kept.now) result }
    ensures at_most { AtMost (take (length kept.now) result.given) kept.now }
{
    let held = kept.len();
    let mut lots = [0; SECTION_PLACES];
    let mut order = [0; SECTION_PLACES];
    let mut given = [0; SECTION_PLACES];
    chosen::on_side_in_codes(
        columns.codes,
        columns.positions,
        numbers,
        outside,
        kept,
        &mut lots[..held],
    );
    let larger = outside;
    method_order::in_order(columns.keys, &lots[..held], larger, &mut order[..held]);
    in_codes::give(columns, numbers, outside, kept, &mut given[..held]);
    Giving { lots, order, given }
}

// All settlement codes together, towards d, the smaller first (01, Expiry, 3.3).
pub fn over_codes(columns: SectionColumns<'_>, d: i64, left: &[u64]) -> Giving
    requires { Lent columns (length left.now) × Small left.now }
    ensures { (ss : List Section) → Of ss columns.entry → Gives (length left.now) false ss (may_give_across ss d left.now) (Across.given_across ss d left.now) result }
{
    let held = left.len();
    let mut lots = [0; SECTION_PLACES];
    let mut order = [0; SECTION_PLACES];
    let mut given = [0; SECTION_PLACES];
    chosen::opposed_to(columns.positions, d, left, &mut lots[..held]);
    let larger = false;
    method_order::in_order(columns.keys, &lots[..held], larger, &mut order[..held]);
    across::give_across(columns, d, left, &mut given[..held]);
    Giving { lots, order, given }
}
