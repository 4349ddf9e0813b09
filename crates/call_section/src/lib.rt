// Opening a section.
#![tactic(auto)]

ghost use Rattle.std.specs.Prelude.{◌≡◌, true};
ghost use Rattle.rules.specs.Book.{good};
ghost use Rattle.rules.specs.Answers.{number_in, answer_in};
ghost use Rattle.rules.specs.Calls as Rules;

use judge::sections;
use rules::book::{Book, Section};
use rules::limits::{SECTION_PLACES, SETTLEMENT_MOST};
use rules::refusal::Refusal;
use rules::units::{Kopecks, Lots};

// Whether a section call on a good book is accepted, or why it is refused (01, Section, 1).
#[tactic(auto, unfolding(rules::specs::Calls::first, rules::specs::Calls::section_number))]
pub fn check(b: Book, settlement: u8, code: [u8; 7]) -> Result<(), Refusal>
    requires { good b ≡ true }
    ensures { number_in result ≡ Rules.section_number b settlement code }
{
    if b.expired {
        return Err(Refusal::Expired);
    }
    if SETTLEMENT_MOST < settlement {
        return Err(Refusal::BadSettlement);
    }
    if !section_code::code_good(code) {
        return Err(Refusal::BadCode);
    }
    if sections::code_held(b, code) {
        return Err(Refusal::CodeHeld);
    }
    if SECTION_PLACES <= b.held {
        return Err(Refusal::SectionsFull);
    }
    Ok(())
}

// A section with no lots, its condition not met (01, Book, 3).
fn new_section(settlement: u8, code: [u8; 7], participant: u32, seller: bool) -> Section
    ensures { result ≡ Rules.new_section settlement code participant seller }
{
    Section {
        settlement,
        code,
        participant,
        seller,
        met: false,
        position: Lots(0),
        basis: Kopecks(0),
    }
}

// The book with one section more, which takes the next number.
pub fn with_section(b: Book, settlement: u8, code: [u8; 7], participant: u32, seller: bool) -> Book
    requires { Rules.section_number b settlement code ≡ 0 }
    ensures { result ≡ Rules.with_section b (Rules.new_section settlement code participant seller) }
{
    let at = b.held;
    let s = new_section(settlement, code, participant, seller);
    let mut next = b;
    next.sections[at] = s;
    next.held = at + 1;
    next
}

// The book with a section more, or a refusal (01, Section, 1; 01, Book, 5 and 6 and 7; 01, Bound, a).
#[tactic(auto, unfolding(rules::specs::Calls::first, rules::specs::Calls::section_number, rules::specs::Calls::section_answer))]
pub fn open_section(
    b: Book,
    settlement: u8,
    code: [u8; 7],
    participant: u32,
    seller: bool,
) -> Result<Book, Refusal>
    ensures { answer_in b result ≡ Rules.section_answer b settlement code participant seller }
{
    if !judge::good(b) {
        return Err(Refusal::BadBook);
    }
    check(b, settlement, code)?;
    Ok(with_section(b, settlement, code, participant, seller))
}
