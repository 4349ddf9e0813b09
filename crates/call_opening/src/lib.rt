// Opening a book.
#![tactic(auto)]

ghost use Rattle.std.specs.Prelude.{◌≡◌};
ghost use Rattle.rules.specs.Book.{opened, no_book};
ghost use Rattle.rules.specs.Answers.{number_in, answer_in};
ghost use Rattle.rules.specs.Calls as Rules;

use judge::{notices, sections, terms};
use rules::book::{Book, LastSession};
use rules::limits::LOT_MOST;
use rules::refusal::Refusal;
use rules::units::Tonnes;

// A book of the terms and of noughts everywhere else; of no terms it is the book of noughts, which every call refuses with 1 (01, Book, 7).
pub fn blank_book(lot: u32, w: u32, r: u32) -> Book
    ensures { result ≡ opened lot w r }
{
    let sections = [sections::blank(); 128];
    let notices = [notices::blank(); 256];
    Book {
        lot: Tonnes(lot),
        w,
        r,
        sections,
        held: 0,
        notices,
        filed: 0,
        last: LastSession::None,
        price: 0,
        trades: 0,
        expired: false,
    }
}

// Whether an opening is accepted, or why it is refused (01, Opening, 1).
#[tactic(auto, unfolding(rules::specs::Calls::first, rules::specs::Calls::opening_number))]
pub fn check(lot: u32, w: u32, r: u32) -> Result<(), Refusal>
    ensures { number_in result ≡ Rules.opening_number lot w r }
{
    if !terms::counted(lot, LOT_MOST) {
        return Err(Refusal::BadLot);
    }
    if !terms::steps_good(w, r) {
        return Err(Refusal::BadStep);
    }
    if !terms::factor_good(w, r) {
        return Err(Refusal::BadFactor);
    }
    Ok(())
}

// A new book of the terms, or a refusal (01, Opening, 1; 01, Book, 7; 01, Bound, a).
#[tactic(auto, unfolding(rules::specs::Calls::opening_answer))]
pub fn open(lot: u32, w: u32, r: u32) -> Result<Book, Refusal>
    ensures { answer_in no_book result ≡ Rules.opening_answer lot w r }
{
    check(lot, w, r)?;
    Ok(blank_book(lot, w, r))
}
