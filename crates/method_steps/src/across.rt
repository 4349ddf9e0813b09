// Step 3: what is left open is closed over all codes together.
ghost use Rattle.std.specs.Prelude.{ℕ, List, ◌≡◌, cond, nat_abs, ◌+ℤ◌, length, replicate};
ghost use Rattle.rules.specs.Words.{entry_ℤ, listed, total_ℤ};
ghost use Rattle.rules.specs.declared.book.Section.{Section};
ghost use Rattle.rules.specs.Expiry;
ghost use Rattle.rules.specs.Expiry.Across;
ghost use Rattle.method_laws.specs.Columns.{NetsSmall, Small};
ghost use Rattle.method_steps.specs.Held.{Lent, Of};

use crate::columns::SectionColumns;
use crate::ordered;
use method_giving::chosen;
use method_holding::nets;
use rules::limits::{SECTION_PLACES, SETTLEMENT_CODES};

// D: what is left of all D(c), summed with sign (01, Expiry, 3.1).
pub fn left_open(gaps: &[i64], nets: &[i64]) -> i64
    requires gaps_len { (length gaps.now ≡ 64) × (length nets.now ≡ 64) }
    requires nets_small { NetsSmall gaps.now × NetsSmall nets.now }
    ensures { result ≡ total_ℤ (listed 64 (λ (c : ℕ). entry_ℤ gaps.now c +ℤ entry_ℤ nets.now c)) }
{
    let mut d = 0;
    for (c, gap) in gaps.iter().enumerate() {
        d += *gap + nets[c];
    }
    d
}

// A net that is opposite to d, 0 for another (01, Expiry, 3.2).
fn cap(net: i64, d: i64) -> u64
    ensures { result ≡ cond (Expiry.opposed net d) (nat_abs net) 0 }
{
    if chosen::opposed(net, d) {
        return net.unsigned_abs();
    }
    0
}

// The net of each code that is opposite to d, 0 of all others (01, Expiry, 3.2).
fn code_caps(d: i64, nets: &[i64], caps: &mut [u64])
    requires { (length nets.now ≡ 64) × (length caps.old ≡ 64) }
    ensures { caps.new ≡ listed 64 (λ (c : ℕ). cond (Expiry.opposed (entry_ℤ nets.now c) d) (nat_abs (entry_ℤ nets.now c)) 0) }
{
    for (c, net) in nets.iter().enumerate() {
        caps[c] = cap(*net, d);
    }
}

// What each section gives towards d; `given` is noughts at first (01, Expiry, 3.3).
pub fn give_across(columns: SectionColumns<'_>, d: i64, left: &[u64], given: &mut [u64])
    requires { Lent columns (length left.now) × (given.old ≡ replicate (length left.now) 0) × Small left.now }
    ensures { (ss : List Section) → Of ss columns.entry → given.new ≡ Across.given_across ss d left.now }
{
    let held = left.len();
    let mut lots = [0; SECTION_PLACES];
    let mut caps = [0; SETTLEMENT_CODES];
    let mut net = [0; SETTLEMENT_CODES];
    chosen::opposed_to(columns.positions, d, left, &mut lots[..held]);
    nets::nets(columns.codes, columns.positions, left, &mut net);
    code_caps(d, &net, &mut caps);
    let need = d.unsigned_abs();
    ordered::give(columns, &lots[..held], false, &mut caps, need, given);
}
