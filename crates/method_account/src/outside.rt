// Step 4: what goes outside, and what stays inside.
ghost use Rattle.std.specs.Prelude.{List, take, length};
ghost use Rattle.rules.specs.declared.book.Section.{Section};
ghost use Rattle.method_laws.specs.Columns.{Small};
ghost use Rattle.method_steps.specs.Held.{Lent, Of};
ghost use Rattle.method_account.specs.Steps.{OutsideOf};

use crate::giving;
use crate::giving::Giving;
use method_giving::lists;
use method_holding::nets;
use method_steps::columns::SectionColumns;
use rules::limits::{SECTION_PLACES, SETTLEMENT_CODES};

// The net of each settlement code's lots kept, what of them goes outside, and what stays inside.
#[derive(Clone, Copy)]
pub struct Outside {
    pub nets: [i64; SETTLEMENT_CODES],
    pub giving: Giving,
    pub near: [u64; SECTION_PLACES],
}

// The lots kept, parted (01, Expiry, 4.1; 01, Expiry, 4.2).
pub fn part(columns: SectionColumns<'_>, kept: [u64; SECTION_PLACES]) -> Outside
    requires { Lent columns (length columns.codes.now) × Small (take (length columns.codes.now) kept) }
    ensures outside_of { (ss : List Section) → Of ss columns.entry → OutsideOf (length columns.entry.codes.now) ss (take (length columns.entry.codes.now) kept) result }
    ensures small { Small (take (length columns.entry.codes.now) result.near) × Small (take (length columns.entry.codes.now) result.giving.given) }
{
    let codes = columns.codes;
    let held = codes.len();
    let mut near = kept;
    let mut net = [0; SETTLEMENT_CODES];
    nets::nets(codes, columns.positions, &kept[..held], &mut net);
    let giving = giving::by_code(columns, &net, true, &kept[..held]);
    let far = giving.given;
    lists::less(&mut near[..held], &far[..held]);
    Outside {
        nets: net,
        giving,
        near,
    }
}
