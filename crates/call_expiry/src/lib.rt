// The expiry: which obligations lapse, and who sells wheat to whom at which elevator.
#![tactic(auto)]

ghost use Rattle.std.specs.Prelude.{◌≡◌, true, ◌||◌, ltb, length};
ghost use Rattle.rules.specs.Answers.{number_in, expiry_answer_in};
ghost use Rattle.rules.specs.Book.{good};
ghost use Rattle.rules.specs.Calls.{first};
ghost use Rattle.rules.specs.Expiry.Call;
ghost use Rattle.rules.specs.Lent.{lists_of, SameLists};
ghost use Rattle.shared_lists.specs.Lists.{lists_read};

use rules::book::{Book, Expired, LastSession};
use rules::limits::REGISTER_PLACES;
use rules::lists::ExpiryLists;
use rules::refusal::Refusal;
use shared_lists::Lists;

// Whether some register list has too few entries (01, Expiry call, 1).
fn register_short(lists: Lists<'_>) -> bool
    ensures { result ≡ (ltb (length lists.entry.buyers.now) 382 || (ltb (length lists.entry.elevators.now) 382 || (ltb (length lists.entry.sellers.now) 382 || ltb (length lists.entry.lots.now) 382))) }
{
    let places = REGISTER_PLACES;
    let later = (lists.sellers.len() < places) | (lists.lots.len() < places);
    (lists.buyers.len() < places) | ((lists.elevators.len() < places) | later)
}

// Whether some section list has fewer entries than the sections held (01, Expiry call, 1; 02, a, 4).
fn sections_short(held: usize, lists: Lists<'_>) -> bool
    ensures { result ≡ (ltb (length lists.entry.delivered.now) held || (ltb (length lists.entry.terminated.now) held || ltb (length lists.entry.lapsed.now) held)) }
{
    let later = (lists.terminated.len() < held) | (lists.lapsed.len() < held);
    (lists.delivered.len() < held) | later
}

// Whether an expiry on a good book is accepted, or why it is refused (01, Expiry call, 1).
#[tactic(auto, using(crate::proofs::Laws::expiry_number_lem))]
pub fn check(b: Book, lists: Lists<'_>) -> Result<(), Refusal>
    requires { good b ≡ true }
    ensures { number_in result ≡ first (Call.expiry_refusals b (lists_read lists.entry).lists) }
{
    if b.expired {
        return Err(Refusal::Expired);
    }
    if (b.last != LastSession::Day) | (b.trades != 0) {
        return Err(Refusal::NotAfterDay);
    }
    let register = register_short(lists);
    let sections = sections_short(b.held, lists);
    if register {
        return Err(Refusal::RegisterShort);
    }
    if sections {
        return Err(Refusal::SectionListsShort);
    }
    Ok(())
}

// The book after its expiry (01, Expiry call, 3).
pub fn expired(b: Book) -> Book
    ensures { result ≡ Call.after_expiry b }
{
    let mut next = b;
    next.expired = true;
    next
}

// An expiry: the register, what is delivered, terminated and lapsed, and the book that has expired; or a refusal with all lists as they were
// (01, Expiry call, 1 and 2 and 3; 01, Expiry, 7; 02, a, 4 and 6; 01, Forms, 2; 01, Book, 5 and 6 and 7; 01, Bound, a).
#[tactic(auto, unfolding(rules::specs::Calls::first, rules::specs::Expiry::Call::expiry_refusals, rules::specs::Expiry::Call::expiry_answer, rules::specs::Expiry::Call::expiry_lists))]
pub fn expiry(b: Book, lists: &mut ExpiryLists) -> Result<Expired, Refusal>
    ensures value { expiry_answer_in b result ≡ Call.expiry_answer b (lists_of lists.old) }
    ensures lists_after { lists_of lists.new ≡ Call.expiry_lists b (lists_of lists.old) }
    ensures same_lists { SameLists lists.new lists.old }
{
    if !judge::good(b) {
        return Err(Refusal::BadBook);
    }
    check(b, shared_lists::of_expiry(lists))?;
    let counts = method_delivery::deliver(b, lists);
    let book = expired(b);
    Ok(Expired {
        pairs: counts.pairs,
        lines: counts.lines,
        kept: counts.kept,
        book,
    })
}
