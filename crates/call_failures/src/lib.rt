// Which failures reach a grower: a section's endings over all patterns of conditions met and not met (02, n).
#![tactic(auto)]

ghost use Rattle.std.specs.Prelude.{◌≡◌, true};
ghost use Rattle.rules.specs.Answers.{number_in, failures_answer_in};
ghost use Rattle.rules.specs.Book.{good};
ghost use Rattle.rules.specs.Failures as Rules;

use rules::book::{Book, Failures};
use rules::refusal::Refusal;

mod endings;
mod names;

// Whether the call on a good book is accepted, or why it is refused: 5, 10 and 40 in their order (02, n, 5).
#[tactic(auto, using(crate::proofs::Laws::failures_number_lem))]
fn check(b: Book, asked: u8, named: &[u8]) -> Result<(), Refusal>
    requires { good b ≡ true }
    ensures { number_in result ≡ Rules.failures_number b asked named.now }
{
    let held = b.held;
    let asked_unknown = held <= (asked as usize);
    let unknown = asked_unknown | names::some_unknown(held, named);
    let unfit = names::unfit(named);
    if b.expired {
        return Err(Refusal::Expired);
    }
    if unknown {
        return Err(Refusal::UnknownSection);
    }
    if unfit {
        return Err(Refusal::BadNames);
    }
    Ok(())
}

// In how many patterns of the sections named the section asked is delivered in full, in part, not at all; or a refusal (02, n, 1 and 2 and 3 and 4 and 5; 01, Book, 5 and 6 and 7; 01, Bound, a).
#[tactic(auto, unfolding(rules::specs::Calls::first, rules::specs::Failures::failures_number, rules::specs::Failures::failures_answer))]
pub fn failures(b: Book, asked: u8, named: &[u8]) -> Result<Failures, Refusal>
    ensures { failures_answer_in result ≡ Rules.failures_answer b asked named.now }
{
    if !judge::good(b) {
        return Err(Refusal::BadBook);
    }
    check(b, asked, named)?;
    let counts = endings::counted(b, asked as usize, named);
    Ok(counts)
}
