// Step 5: what is drawn of the notices.
ghost use Rattle.std.specs.Prelude.{List, ◌≡◌, ◌≤◌, take, length};
ghost use Rattle.rules.specs.declared.book.{Section.Section, Notice.Notice};
ghost use Rattle.method_laws.specs.Columns.{Small};
ghost use Rattle.method_register.specs.Passes.{Noticed, Drawing};
ghost use Rattle.method_account.specs.Steps.{DrawnOf};

use method_register::lots;
use rules::limits::NOTICE_PLACES;

// What is drawn inside of each notice, and what is drawn of it outside.
#[derive(Clone, Copy)]
pub struct Drawn {
    pub inside: [u64; NOTICE_PLACES],
    pub beyond: [u64; NOTICE_PLACES],
}

// What is drawn of the notices for the lots kept; those of `near` stay inside (01, Expiry, 5.1).
pub fn draw(positions: &[i64], selling: &[u8], stock: &[u64], kept: &[u64], near: &[u64]) -> Drawn
    requires { (length positions.now ≤ 128) × (length kept.now ≡ length positions.now) × (length near.now ≡ length positions.now) × Noticed selling.now stock.now (length positions.now) }
    ensures drawn_of { (ss : List Section) (ns : List Notice) → Drawing ss ns positions.now selling.now stock.now → DrawnOf (length selling.now) ss ns kept.now near.now result }
    ensures small { Small (take (length selling.now) result.inside) × Small (take (length selling.now) result.beyond) }
{
    let filed = selling.len();
    let mut inside = [0; NOTICE_PLACES];
    let mut beyond = [0; NOTICE_PLACES];
    lots::draw(
        positions,
        selling,
        stock,
        kept,
        near,
        &mut inside[..filed],
        &mut beyond[..filed],
    );
    Drawn { inside, beyond }
}
