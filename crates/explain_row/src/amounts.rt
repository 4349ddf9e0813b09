// Lots and their values, for every number that there is: an amount beyond any of a contract's counts as 0.
ghost use Rattle.std.specs.Prelude.{◌≡◌};
ghost use Rattle.explain_row.specs.Amounts.{less_of};

use rules::units::{Kopecks, Lots};
use value::signed;

// The largest position and the largest value (01, Book, 4).
const LOTS_MOST: u64 = 1_000_000;

const VALUE_MOST: u64 = 1_000_000_000;

// More than any sum of margins or entry values comes to.
const SUM_MOST: u64 = 4_000_000_000_000_000_000;

// So many lots at a value (01, Head, 4).
pub fn worth(lots: i64, value: i64) -> i64 {
    if !signed::within(lots, LOTS_MOST) {
        return 0;
    }
    if !signed::within(value, VALUE_MOST) {
        return 0;
    }
    value::worth(Lots(lots), Kopecks(value)).0
}

// What is left of an amount when another is taken off.
pub fn less(x: i64, y: i64) -> i64
    ensures { result ≡ less_of x y }
{
    if !signed::within(x, SUM_MOST) {
        return 0;
    }
    if !signed::within(y, SUM_MOST) {
        return 0;
    }
    signed::difference(x, y)
}
