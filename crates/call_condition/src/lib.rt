// Setting a section's condition mark.
#![tactic(auto)]

ghost use Rattle.std.specs.Prelude.{◌≡◌, true};
ghost use Rattle.rules.specs.Book.{good};
ghost use Rattle.rules.specs.Answers.{number_in, answer_in};
ghost use Rattle.rules.specs.Calls as Rules;

use rules::book::Book;
use rules::refusal::Refusal;

// Whether a condition call on a good book is accepted, or why it is refused (01, Condition, 1).
#[tactic(auto, unfolding(rules::specs::Calls::first, rules::specs::Calls::condition_number))]
pub fn check(b: Book, section: u8) -> Result<(), Refusal>
    requires { good b ≡ true }
    ensures { number_in result ≡ Rules.condition_number b section }
{
    if b.expired {
        return Err(Refusal::Expired);
    }
    if b.held <= (section as usize) {
        return Err(Refusal::UnknownSection);
    }
    Ok(())
}

pub fn marked(b: Book, section: u8, met: bool) -> Book
    requires { Rules.condition_number b section ≡ 0 }
    ensures { result ≡ Rules.after_condition b section met }
{
    let at = section as usize;
    let mut s = b.sections[at];
    s.met = met;
    let mut next = b;
    next.sections[at] = s;
    next
}

// The book with the section's mark set, or a refusal (01, Condition, 1; 01, Book, 5 and 6 and 7; 01, Bound, a).
#[tactic(auto, unfolding(rules::specs::Calls::first, rules::specs::Calls::condition_number, rules::specs::Calls::condition_answer))]
pub fn set_condition(b: Book, section: u8, met: bool) -> Result<Book, Refusal>
    ensures { answer_in b result ≡ Rules.condition_answer b section met }
{
    if !judge::good(b) {
        return Err(Refusal::BadBook);
    }
    check(b, section)?;
    Ok(marked(b, section, met))
}
