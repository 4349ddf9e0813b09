// Steps 2 and 4: each settlement code by itself.
ghost use Rattle.std.specs.Prelude.{List, ◌≡◌, length, replicate};
ghost use Rattle.rules.specs.declared.book.Section.{Section};
ghost use Rattle.method_laws.specs.Columns.{AtMost, NetsSmall};
ghost use Rattle.method_laws.specs.Giving;
ghost use Rattle.method_steps.specs.Held.{Lent, Of};

use crate::columns::SectionColumns;
use crate::ordered;
use method_giving::{chosen, lists};
use rules::limits::{SECTION_PLACES, SETTLEMENT_CODES};

// What each section gives of the size of its code's number: towards D(c), or outside where `outside` says so; `given` is noughts at first (01, Expiry, 2.2; 01, Expiry, 4.1).
pub fn give(
    columns: SectionColumns<'_>,
    numbers: &[i64],
    outside: bool,
    kept: &[u64],
    given: &mut [u64],
)
    requires held { Lent columns (length kept.now) × (length numbers.now ≡ 64) × (given.old ≡ replicate (length kept.now) 0) }
    requires nets_small { NetsSmall numbers.now }
    ensures given_after { (ss : List Section) → Of ss columns.entry → given.new ≡ Giving.given_by_size outside ss numbers.now kept.now }
    ensures at_most { AtMost given.new kept.now }
{
    let held = kept.len();
    let mut lots = [0; SECTION_PLACES];
    let mut caps = [0; SETTLEMENT_CODES];
    chosen::on_side_in_codes(
        columns.codes,
        columns.positions,
        numbers,
        outside,
        kept,
        &mut lots[..held],
    );
    lists::magnitudes(numbers, &mut caps);
    let need = lists::sum(&caps);
    let larger = outside;
    ordered::give(columns, &lots[..held], larger, &mut caps, need, given);
}
