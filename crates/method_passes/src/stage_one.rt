// Stage one: pairs of buyers and elevators.
ghost use Rattle.std.specs.Prelude.{◌≡◌, ◌≤◌, length};
ghost use Rattle.method_laws.specs.Columns.{by_key};
ghost use Rattle.method_passes.specs.Formed.{pairs_in, pairs_from};

use crate::pairs::Pairs;
use crate::{fullest, pairs};
use rules::limits::ELEVATORS;

// The pairs that buyers' lots and elevators' lots form (01, Expiry, 6.2).
pub fn form_pairs(keys: &[u64], buyers: &mut [u64], stocks: &mut [u64]) -> Pairs
    requires { (length keys.now ≤ 128) × (length buyers.old ≡ length keys.now) × (length stocks.old ≡ 32) }
    ensures { pairs_in result ≡ pairs_from (by_key keys.now) buyers.old stocks.old }
{
    let turns = buyers.len() + ELEVATORS;
    let mut ps = pairs::none();
    // a turn is a pair more: the pairs count the turns, so a `for` would only count them again
    while ps.count < turns {
        let buyer = fullest::buyer(keys, buyers);
        let elevator = fullest::elevator(stocks);
        let has = buyers.get(buyer).copied().unwrap_or(0);
        let stands = stocks.get(elevator).copied().unwrap_or(0);
        let amount = has.min(stands);
        if amount == 0 {
            break;
        }
        ps.push(buyer as u8, elevator as u8, amount);
        buyers[buyer] = has - amount;
        stocks[elevator] = stands - amount;
    }
    ps
}
