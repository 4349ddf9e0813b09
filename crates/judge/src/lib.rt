// Whether a book keeps its rules. Each function computes the part of the definition `good` that its contract names.
#![tactic(auto)]

ghost use Rattle.std.specs.Prelude.{◌≡◌};
ghost use Rattle.rules.specs.Book as Rules;
ghost use Rattle.rules.specs.Book.{tails_blank};

use rules::book::Book;
use rules::limits::TRADES_MOST;

pub mod keys;
pub mod notices;
pub mod sections;
pub mod terms;

// Whether every place not in use is noughts (01, Book, 2).
fn tails_blank(b: Book) -> bool
    ensures { result ≡ tails_blank b }
{
    let sections = b
        .sections
        .iter()
        .skip(b.held)
        .all(|s| sections::section_blank(*s));
    let notices = b
        .notices
        .iter()
        .skip(b.filed)
        .all(|n| notices::notice_blank(*n));
    sections & notices
}

// Whether the book keeps every rule and limit; a call refuses any other with 1 (01, Book, 1 and 2 and 3 and 4 and 5; 01, Value, 1).
pub fn good(b: Book) -> bool
    ensures { result ≡ Rules.good b }
{
    let lot = b.lot;
    if !terms::terms_good(lot.0, b.w, b.r) {
        return false;
    }
    if !terms::places_good(b.held, b.filed) {
        return false;
    }
    let last = b.last;
    if !terms::last_good(last, b.price) {
        return false;
    }
    if TRADES_MOST < b.trades {
        return false;
    }
    if !sections::sections_good(b) {
        return false;
    }
    if !notices::notices_good(b) {
        return false;
    }
    tails_blank(b)
}
