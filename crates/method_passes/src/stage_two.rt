// Stage two: lines of pairs and notices.
ghost use Rattle.std.specs.Prelude.{◌≡◌, ◌+◌, ◌≤◌, ◌<◌, ◌++◌, length};
ghost use Rattle.method_laws.specs.Columns.{by_key};
ghost use Rattle.method_passes.specs.Formed.{pairs_in, lines_in, next_choice, lines_from, Known, Sold};

use crate::pairs::Pairs;
use crate::register::Register;
use crate::{fullest, offers};

// Which pair, which notice, and how much.
#[derive(Clone, Copy)]
struct Choice {
    pair: usize,
    notice: usize,
    lots: u64,
}

// The next line (01, Expiry, 6.3). Where none is left to form it has no lots and no `None`: so the definition `next_choice`, which the contract names, answers it.
fn choose(keys: &[u64], ps: Pairs, sellers: &[u8], stands: &[u8], drawn: &[u64]) -> Choice
    requires known { Known (pairs_in ps) (length keys.now) × (0 < ps.count) }
    requires sold { Sold sellers.now stands.now drawn.now (length keys.now) × (0 < length stands.now) }
    ensures { result ≡ next_choice (by_key keys.now) sellers.now stands.now (pairs_in ps) drawn.now }
{
    let pair = fullest::pair(keys, ps);
    let elevator = ps.elevators[pair];
    let notice = fullest::notice(keys, sellers, stands, drawn, elevator);
    let has = ps.lots[pair];
    let offered = offers::offer(stands, drawn, elevator, notice);
    let lots = has.min(offered);
    Choice { pair, notice, lots }
}

// The lines that pairs and what is drawn of the notices form, after those that the register has (01, Expiry, 6.3).
pub fn form_lines(
    keys: &[u64],
    formed: Pairs,
    sellers: &[u8],
    stands: &[u8],
    drawn: &mut [u64],
    before: Register,
) -> Register
    requires known { Known (pairs_in formed) (length keys.now) × Sold sellers.now stands.now drawn.old (length keys.now) }
    requires drawn_bound { before.count + length (lines_from (by_key keys.now) sellers.now stands.now (pairs_in formed) drawn.old) ≤ 382 }
    ensures { lines_in result ≡ lines_in before ++ lines_from (by_key keys.now) sellers.now stands.now (pairs_in formed) drawn.old }
{
    let count = formed.count;
    let filed = stands.len();
    if (count == 0) | (filed == 0) {
        return before;
    }
    let turns = count + filed;
    let mut ps = formed;
    let mut g = before;
    for turn in 0..turns {
        let next = choose(keys, ps, sellers, stands, drawn);
        let lots = next.lots;
        if lots == 0 {
            break;
        }
        let p = next.pair;
        let k = next.notice;
        let buyer = ps.buyers[p];
        let elevator = ps.elevators[p];
        let has = ps.lots[p];
        let seller = sellers[k];
        g.push(buyer, elevator, seller, lots as u32);
        ps.leave(p, has - lots);
        let left = drawn[k];
        drawn[k] = left - lots;
    }
    g
}
