// The length of a listing before anything is printed, for the label of a box (02, m).
#![tactic(auto)]

ghost use Rattle.std.specs.Prelude.{◌≡◌};
ghost use Rattle.rules.specs.Answers.{label_answer_in};
ghost use Rattle.rules.specs.Label;
ghost use Rattle.shared_lists.specs.Lists.{lists_read};

use crate::lists::Lists;
use rules::book::Book;
use rules::limits::REGISTER_PLACES;
use rules::refusal::Refusal;

pub mod lengths;
pub mod lists;
mod rows;

// Whether the register's lists are of one length, and that not above 382 (02, m, 4).
fn register_even(lists: Lists) -> bool
    ensures { result ≡ Label.register_even (lists_read lists.entry).lists }
{
    let rows = lists.buyers.len();
    let elevators = lists.elevators.len();
    let sellers = lists.sellers.len();
    let lots = lists.lots.len();
    (elevators == rows) & ((sellers == rows) & ((lots == rows) & (rows <= REGISTER_PLACES)))
}

// Whether some section list has fewer entries than the sections held, the margin sums among them (02, m, 4).
#[tactic(auto, unfolding(rules::specs::Label::sections_short))]
fn sections_short(held: usize, lists: Lists) -> bool
    ensures { result ≡ Label.sections_short held (lists_read lists.entry) }
{
    let delivered = lists.delivered.len();
    let terminated = lists.terminated.len();
    let lapsed = lists.lapsed.len();
    let sums = lists.sums.len();
    (delivered < held) | (terminated < held) | (lapsed < held) | (sums < held)
}

// How many bytes the listing of a book, a register and its section lists has, whatever numbers stand in them; or a refusal (02, m, 1 and 2 and 3 and 4; 01, Book, 5 and 6 and 7; 01, Bound, a).
pub fn listing_length(b: Book, lists: Lists) -> Result<usize, Refusal>
    ensures { label_answer_in result ≡ Label.label_answer b (lists_read lists.entry) }
{
    if !judge::good(b) {
        return Err(Refusal::BadBook);
    }
    let held = b.held;
    let lot = b.lot;
    let even = register_even(lists);
    let short = sections_short(held, lists);
    if !even | short {
        return Err(Refusal::UnfitLists);
    }
    let Some(lines) = rows::lines(held, lot, lists) else {
        return Err(Refusal::UnfitLists);
    };
    let head = lengths::head(lists.buyers.len());
    let sections = rows::sections(held, lists);
    let register = head + lines;
    Ok(register + sections)
}
