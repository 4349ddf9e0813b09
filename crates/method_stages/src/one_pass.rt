// One pass by itself: stage one, then stage two.
ghost use Rattle.std.specs.Prelude.{◌≡◌, ◌≤◌, length};
ghost use Rattle.rules.specs.Expiry.Passes;
ghost use Rattle.method_laws.specs.Columns.{by_key};
ghost use Rattle.method_passes.specs.Formed.{pairs_in, lines_in, pairs_from, lines_from, pass_pairs, pass_lines, Known, Sold};

use crate::Stages;
use method_passes::pairs::Pairs;
use method_passes::register::Register;
use method_passes::{offers, register, stage_one, stage_two};
use rules::limits::{ELEVATORS, NOTICE_PLACES, SECTION_PLACES};

// Stage one on a copy of the buyers' lots and of the elevators' (01, Expiry, 6.2).
fn pairs_of(keys: &[u64], buyers: &[u64], stocks: [u64; ELEVATORS]) -> Pairs
    requires { (length keys.now ≤ 128) × (length buyers.now ≡ length keys.now) }
    ensures { pairs_in result ≡ pairs_from (by_key keys.now) buyers.now stocks }
{
    let held = buyers.len();
    let mut bought = [0; SECTION_PLACES];
    bought[..held].copy_from_slice(buyers);
    let mut left = stocks;
    stage_one::form_pairs(keys, &mut bought[..held], &mut left)
}

// Stage two on a copy of what is drawn, its lines in a register of their own (01, Expiry, 6.3).
fn lines_of(keys: &[u64], formed: Pairs, sellers: &[u8], stands: &[u8], drawn: &[u64]) -> Register
    requires known { Known (pairs_in formed) (length keys.now) × Sold sellers.now stands.now drawn.now (length keys.now) }
    requires drawn_len_bound { length (lines_from (by_key keys.now) sellers.now stands.now (pairs_in formed) drawn.now) ≤ 382 }
    ensures { lines_in result ≡ lines_from (by_key keys.now) sellers.now stands.now (pairs_in formed) drawn.now }
{
    let filed = drawn.len();
    let mut sold = [0; NOTICE_PLACES];
    sold[..filed].copy_from_slice(drawn);
    let empty = register::none();
    stage_two::form_lines(keys, formed, sellers, stands, &mut sold[..filed], empty)
}

// Both stages of one pass by itself; the lists that are lent stay as they are (01, Expiry, 6.1).
pub fn stages(keys: &[u64], buyers: &[u64], sellers: &[u8], stands: &[u8], drawn: &[u64]) -> Stages
    requires keys_len_bound { (length keys.now ≤ 128) × (length buyers.now ≡ length keys.now) }
    requires sold { Sold sellers.now stands.now drawn.now (length keys.now) }
    requires drawn_len_bound { length (pass_lines (by_key keys.now) sellers.now stands.now buyers.now drawn.now) ≤ 382 }
    ensures stocks_value { result.stocks ≡ Passes.elevator_lots stands.now drawn.now }
    ensures pairs_value { pairs_in result.pairs ≡ pass_pairs (by_key keys.now) stands.now buyers.now drawn.now }
    ensures lines_value { lines_in result.lines ≡ pass_lines (by_key keys.now) sellers.now stands.now buyers.now drawn.now }
{
    let mut stocks = [0; ELEVATORS];
    offers::elevator_lots(stands, drawn, &mut stocks);
    let pairs = pairs_of(keys, buyers, stocks);
    let lines = lines_of(keys, pairs, sellers, stands, drawn);
    Stages {
        stocks,
        pairs,
        lines,
    }
}
