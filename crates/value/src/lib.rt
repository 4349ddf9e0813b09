// The factor K, the value V of a price, and what lots are worth at it.
#![tactic(auto)]

ghost use Rattle.std.specs.Prelude.{◌≡◌, ◌*◌, ◌≤◌, nat_abs};
ghost use Rattle.rules.specs.Units;
ghost use Rattle.rules.specs.Value;
ghost use Rattle.rules.specs.Value.{value_of};

use rules::limits::FACTOR_UNIT;
use rules::units::{Kopecks, Lots};

pub mod lots;
pub mod rounding;
pub mod signed;

// K, in hundred-thousandths of a kopeck for a kopeck of price (01, Value, 1 and 2).
pub fn factor(w: u32, r: u32) -> u64
    ensures { result ≡ Value.factor w r }
{
    rounding::rounded(FACTOR_UNIT * (w as u64), r as u64)
}

// What V is rounded from: the price times K (01, Value, 3). Two numbers of 32 bits multiplied fit 64.
pub fn multiplied(price: u32, k: u32) -> u64
    ensures { result ≡ price * k }
{
    (price as u64) * (k as u64)
}

// V, in kopecks for one lot (01, Value, 3).
pub fn value(k: u32, price: u32) -> Kopecks
    ensures { result ≡ value_of k price }
{
    let v = rounding::rounded(multiplied(price, k), FACTOR_UNIT);
    let kopecks = v as i64;
    Kopecks(kopecks)
}

// What lots are worth at a value for one lot (01, Head, 4; 01, Forms, 4).
pub fn worth(lots: Lots, value: Kopecks) -> Kopecks
    requires { (nat_abs lots.0 ≤ 1_000_000) × (nat_abs value.0 ≤ 1_000_000_000) }
    ensures { result ≡ Units.worth lots value }
{
    let count = lots.0;
    let each = value.0;
    Kopecks(signed::product(count, each))
}
