// Step 6 pass by pass: what a pass takes, and what its stages form.
ghost use Rattle.std.specs.Prelude.{◌<◌};
ghost use Rattle.rules.specs.declared.book.Book.{Book};
ghost use Rattle.method_account.specs.Passes.{inside_of, outside_of, Near, Far, Behind, PassOf};

use method_register::chosen;
use method_stages::{Stages, one_pass};
use rules::limits::{NOTICE_PLACES, SECTION_PLACES};

// The lots of a pass's buyers, what is drawn for it of each notice, and its stages.
#[derive(Drop)]
pub struct Pass {
    pub buyers: [u64; SECTION_PLACES],
    pub drawn: [u64; NOTICE_PLACES],
    pub stages: Stages,
}

// The inside pass of a settlement code, of the lots that stay inside and of what is drawn inside (01, Expiry, 6.1).
pub fn inside_pass(
    codes: &[u8],
    positions: &[i64],
    keys: &[u64],
    selling: &[u8],
    stands: &[u8],
    near: &[u64],
    inside: &[u64],
    c: u8,
) -> Pass
    requires { Behind (Near codes.now positions.now keys.now selling.now stands.now near.now inside.now) × (c < 64) }
    ensures { (b : Book) → Near codes.now positions.now keys.now selling.now stands.now near.now inside.now b → PassOf b (inside_of b c) result }
{
    let held = near.len();
    let filed = inside.len();
    let mut buyers = [0; SECTION_PLACES];
    let mut drawn = [0; NOTICE_PLACES];
    chosen::lots_in_code(codes, near, c, &mut buyers[..held]);
    chosen::keep_long(positions, &mut buyers[..held]);
    chosen::drawn_in_code(codes, selling, inside, c, &mut drawn[..filed]);
    let stages = one_pass::stages(keys, &buyers[..held], selling, stands, &drawn[..filed]);
    Pass {
        buyers,
        drawn,
        stages,
    }
}

// The outside pass, of the lots that go outside and of what is drawn outside (01, Expiry, 6.1).
pub fn outside_pass(
    positions: &[i64],
    keys: &[u64],
    selling: &[u8],
    stands: &[u8],
    far: &[u64],
    beyond: &[u64],
) -> Pass
    requires { Behind (Far positions.now keys.now selling.now stands.now far.now beyond.now) }
    ensures { (b : Book) → Far positions.now keys.now selling.now stands.now far.now beyond.now b → PassOf b (outside_of b) result }
{
    let held = far.len();
    let filed = beyond.len();
    let mut buyers = [0; SECTION_PLACES];
    let mut drawn = [0; NOTICE_PLACES];
    buyers[..held].copy_from_slice(far);
    chosen::keep_long(positions, &mut buyers[..held]);
    drawn[..filed].copy_from_slice(beyond);
    let stages = one_pass::stages(keys, &buyers[..held], selling, stands, &drawn[..filed]);
    Pass {
        buyers,
        drawn,
        stages,
    }
}
