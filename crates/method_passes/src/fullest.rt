// The place of most lots, among equal ones by the paper's keys. `keys` tell which of two section codes is lower. Each walk reads columns of its own, so that one walk with
// closures for what is read would be no shorter than these; what they share is `leader`.
ghost use Rattle.std.specs.Prelude.{◌≡◌, cond, ◌&&◌, ◌||◌, ltb, eqb, length};
ghost use Rattle.rules.specs.Expiry.Passes;
ghost use Rattle.method_laws.specs.Columns.{by_key};
ghost use Rattle.method_passes.specs.Formed.{pairs_in, Known, Sold};

use crate::offers;
use crate::pairs::Pairs;

// Of two places the one with more lots, and of equal ones the first if it comes earlier.
fn leader(i: usize, own: u64, best: usize, most: u64, earlier: bool) -> usize
    ensures { result ≡ cond (ltb most own || eqb most own && earlier) i best }
{
    if (most < own) | ((most == own) & earlier) {
        return i;
    }
    best
}

// The buyer section with most lots; ties: lower section code (01, Expiry, 6.4).
pub fn buyer(keys: &[u64], lots: &[u64]) -> usize
    requires { length keys.now ≡ length lots.now }
    ensures { result ≡ Passes.fullest_buyer (by_key keys.now) lots.now }
{
    let mut best = 0;
    for (i, own) in lots.iter().enumerate() {
        let most = lots[best];
        let mine = keys[i];
        let its = keys[best];
        let earlier = mine < its;
        best = leader(i, *own, best, most, earlier);
    }
    best
}

// The elevator with most lots; ties: lower elevator (01, Expiry, 6.4).
pub fn elevator(lots: &[u64]) -> usize
    ensures { result ≡ Passes.fullest_elevator lots.now }
{
    let mut best = 0;
    for (i, own) in lots.iter().enumerate() {
        let most = lots[best];
        let earlier = i < best;
        best = leader(i, *own, best, most, earlier);
    }
    best
}

// Whether a pair's buyer has the lower section code, or the same buyer's pair the lower elevator.
fn earlier_pair(mine: u64, its: u64, same: bool, stands: u8, elsewhere: u8) -> bool
    ensures { result ≡ (ltb mine its || same && ltb stands elsewhere) }
{
    (mine < its) | (same & (stands < elsewhere))
}

// The pair with most lots; ties: lower buyer section code, then lower elevator (01, Expiry, 6.4).
pub fn pair(keys: &[u64], ps: Pairs) -> usize
    requires { Known (pairs_in ps) (length keys.now) }
    ensures { result ≡ Passes.fullest_pair (by_key keys.now) (pairs_in ps) }
{
    let mut best = 0;
    for i in 0..ps.count {
        let own = ps.lots[i];
        let most = ps.lots[best];
        let buyer = ps.buyers[i];
        let other = ps.buyers[best];
        let mine = keys[buyer as usize];
        let its = keys[other as usize];
        let stands = ps.elevators[i];
        let elsewhere = ps.elevators[best];
        let earlier = earlier_pair(mine, its, buyer == other, stands, elsewhere);
        best = leader(i, own, best, most, earlier);
    }
    best
}

// The notice with most lots at an elevator; ties: lower seller section code (01, Expiry, 6.4).
pub fn notice(keys: &[u64], sellers: &[u8], stands: &[u8], drawn: &[u64], elevator: u8) -> usize
    requires { Sold sellers.now stands.now drawn.now (length keys.now) }
    ensures { result ≡ Passes.fullest_notice (by_key keys.now) sellers.now stands.now drawn.now elevator }
{
    let mut best = 0;
    for i in 0..stands.len() {
        let own = offers::offer(stands, drawn, elevator, i);
        let most = offers::offer(stands, drawn, elevator, best);
        let seller = sellers[i] as usize;
        let other = sellers[best] as usize;
        let mine = keys[seller];
        let its = keys[other];
        let lower = mine < its;
        best = leader(i, own, best, most, lower);
    }
    best
}
