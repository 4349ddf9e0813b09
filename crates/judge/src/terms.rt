// The terms, the counts and the last session.
ghost use Rattle.std.specs.Prelude.{◌≡◌, ◌≤◌, leb};
ghost use Rattle.rules.specs.Words.{between, ◌and◌};
ghost use Rattle.rules.specs.Book.{section_places, notice_places, lot_good, steps_good, factor_good, last_good};
ghost use Rattle.rules.specs.Value.{factor, value_of};

use rules::book::LastSession;
use rules::limits::{FACTOR_MOST, LOT_MOST, NOTICE_PLACES, PRICE_MOST, SECTION_PLACES, STEP_MOST};
use rules::units::Kopecks;

// A number that counts something, from 1 to a limit.
pub fn counted(n: u32, most: u32) -> bool
    ensures { result ≡ between 1 most n }
{
    if n < 1 {
        return false;
    }
    n <= most
}

pub fn steps_good(w: u32, r: u32) -> bool
    ensures { result ≡ steps_good w r }
{
    if !counted(w, STEP_MOST) {
        return false;
    }
    counted(r, STEP_MOST)
}

pub fn factor_good(w: u32, r: u32) -> bool
    ensures { result ≡ factor_good w r }
{
    let k = value::factor(w, r);
    if k < 1 {
        return false;
    }
    k <= FACTOR_MOST
}

// Whether lot, W, R and K keep their limits (01, Opening, 1).
pub fn terms_good(lot: u32, w: u32, r: u32) -> bool
    ensures { result ≡ (lot_good lot and steps_good w r and factor_good w r) }
{
    if !counted(lot, LOT_MOST) {
        return false;
    }
    if !steps_good(w, r) {
        return false;
    }
    factor_good(w, r)
}

// The places there are is a matter of types: what is left to see is how many of them are in use (01, Book, 1).
pub fn places_good(held: usize, filed: usize) -> bool
    ensures { result ≡ (leb held section_places and leb filed notice_places) }
{
    (held <= SECTION_PLACES) & (filed <= NOTICE_PLACES)
}

// Whether the last price fits the last session: 0 exactly where there was none (01, Book, 1).
pub fn last_good(last: LastSession, price: u32) -> bool
    ensures { result ≡ last_good last price }
{
    match last {
        LastSession::None => price == 0,
        LastSession::Day => counted(price, PRICE_MOST),
        LastSession::Evening => counted(price, PRICE_MOST),
    }
}

// V of a price under W and R (01, Value, 5).
pub fn value_at(w: u32, r: u32, price: u32) -> Kopecks
    requires { factor w r ≤ 10_000_000 }
    ensures { result ≡ value_of (factor w r) price }
{
    let k = value::factor(w, r);
    value::value(k as u32, price)
}
