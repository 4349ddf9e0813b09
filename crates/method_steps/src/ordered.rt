// Sections put in an order give what they have.
ghost use Rattle.std.specs.Prelude.{List, ◌≡◌, length, replicate};
ghost use Rattle.rules.specs.declared.book.Section.{Section};
ghost use Rattle.rules.specs.Expiry.{lower_section_code};
ghost use Rattle.method_laws.specs.Columns.{AtMost};
ghost use Rattle.method_laws.specs.Giving;
ghost use Rattle.method_steps.specs.Held.{Lent, Of};

use crate::columns::SectionColumns;
use method_giving::taken;
use rules::limits::SECTION_PLACES;

// What each section gives, the smaller first, or the larger where `larger` says so; `given` is noughts at first (01, Expiry, 2.2; 01, Expiry, 4.1).
pub fn give(
    columns: SectionColumns<'_>,
    lots: &[u64],
    larger: bool,
    caps: &mut [u64],
    need: u64,
    given: &mut [u64],
)
    requires { Lent columns (length lots.now) × (given.old ≡ replicate (length lots.now) 0) × (length caps.old ≡ 64) }
    ensures given_after { (ss : List Section) → Of ss columns.entry → given.new ≡ Giving.taken ss (Giving.in_order (Giving.sooner larger) (lower_section_code ss) lots.now (length ss)) lots.now caps.old need }
    ensures at_most { AtMost given.new lots.now }
{
    let held = lots.len();
    let mut order = [0; SECTION_PLACES];
    method_order::in_order(columns.keys, lots, larger, &mut order[..held]);
    taken::give(columns.codes, &order[..held], lots, caps, need, given);
}
