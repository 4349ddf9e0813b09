// A pass: both stages.
ghost use Rattle.std.specs.Prelude.{◌≡◌, ◌+◌, ◌≤◌, ◌++◌, length};
ghost use Rattle.method_laws.specs.Columns.{by_key};
ghost use Rattle.method_passes.specs.Formed.{lines_in, pass_pairs, pass_lines, Sold};

use crate::register::Register;
use crate::{offers, stage_one, stage_two};
use rules::limits::ELEVATORS;

// What the passes have formed so far.
#[derive(Clone, Copy)]
pub struct Formed {
    pub register: Register,
    // How many pairs.
    pub pairs: usize,
}

// One pass more: its lines after those that the register has. Before it there are at most 64 passes of 160 pairs (01, Expiry, 6.1).
pub fn run(
    keys: &[u64],
    buyers: &mut [u64],
    sellers: &[u8],
    stands: &[u8],
    drawn: &mut [u64],
    before: Formed,
) -> Formed
    requires keys_len_bound { (length keys.now ≤ 128) × (length buyers.old ≡ length keys.now) × (before.pairs ≤ 10_240) }
    requires sold { Sold sellers.now stands.now drawn.old (length keys.now) }
    requires drawn_bound { before.register.count + length (pass_lines (by_key keys.now) sellers.now stands.now buyers.old drawn.old) ≤ 382 }
    ensures register_value { lines_in result.register ≡ lines_in before.register ++ pass_lines (by_key keys.now) sellers.now stands.now buyers.old drawn.old }
    ensures pairs_value { result.pairs ≡ before.pairs + length (pass_pairs (by_key keys.now) stands.now buyers.old drawn.old) }
{
    let mut stocks = [0; ELEVATORS];
    offers::elevator_lots(stands, drawn, &mut stocks);
    let ps = stage_one::form_pairs(keys, buyers, &mut stocks);
    let formed = ps.count;
    let register = before.register;
    let after = stage_two::form_lines(keys, ps, sellers, stands, drawn, register);
    let earlier = before.pairs;
    let all = earlier + formed;
    Formed {
        register: after,
        pairs: all,
    }
}
