// Step 4: what goes outside.
ghost use Rattle.std.specs.Prelude.{List, ◌≡◌, length, replicate};
ghost use Rattle.rules.specs.declared.book.Section.{Section};
ghost use Rattle.rules.specs.Expiry.Outside;
ghost use Rattle.method_laws.specs.Columns.{AtMost, Small};
ghost use Rattle.method_steps.specs.Held.{Lent, Of};

use crate::columns::SectionColumns;
use crate::in_codes;
use method_holding::nets;
use rules::limits::SETTLEMENT_CODES;

// What of the lots kept goes outside; `far` is noughts at first (01, Expiry, 4.1).
pub fn outside(columns: SectionColumns<'_>, kept: &[u64], far: &mut [u64])
    requires { Lent columns (length kept.now) × (far.old ≡ replicate (length kept.now) 0) × Small kept.now }
    ensures far_after { (ss : List Section) → Of ss columns.entry → far.new ≡ Outside.outside ss kept.now }
    ensures at_most { AtMost far.new kept.now }
{
    let mut net = [0; SETTLEMENT_CODES];
    nets::nets(columns.codes, columns.positions, kept, &mut net);
    in_codes::give(columns, &net, true, kept, far);
}
