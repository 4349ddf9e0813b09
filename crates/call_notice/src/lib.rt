// Filing a notice.
#![tactic(auto)]

ghost use Rattle.std.specs.Prelude.{◌≡◌, true};
ghost use Rattle.rules.specs.Book.{good};
ghost use Rattle.rules.specs.Answers.{number_in, answer_in};
ghost use Rattle.rules.specs.Calls as Rules;

use judge::{notices, terms};
use rules::book::{Book, Notice};
use rules::limits::{ELEVATOR_MOST, NOTICE_LOTS_MOST, NOTICE_PLACES};
use rules::refusal::Refusal;
use rules::units::Lots;

// Whether a notice call on a good book is accepted, or why it is refused (01, Notice, 1).
#[tactic(auto, unfolding(rules::specs::Calls::first, rules::specs::Calls::notice_number))]
pub fn check(b: Book, section: u8, elevator: u8, lots: u32) -> Result<(), Refusal>
    requires { good b ≡ true }
    ensures { number_in result ≡ Rules.notice_number b section elevator lots }
{
    if b.expired {
        return Err(Refusal::Expired);
    }
    if b.held <= (section as usize) {
        return Err(Refusal::UnknownSection);
    }
    if ELEVATOR_MOST < elevator {
        return Err(Refusal::BadElevator);
    }
    if !terms::counted(lots, NOTICE_LOTS_MOST) {
        return Err(Refusal::BadNoticeLots);
    }
    if notices::notice_filed(b, section, elevator) {
        return Err(Refusal::NoticeFiled);
    }
    if NOTICE_PLACES <= b.filed {
        return Err(Refusal::NoticesFull);
    }
    Ok(())
}

// The book with one notice more, which takes the next place.
pub fn filed(b: Book, section: u8, elevator: u8, lots: u32) -> Book
    requires { Rules.notice_number b section elevator lots ≡ 0 }
    ensures { result ≡ Rules.after_notice b section elevator lots }
{
    let at = b.filed;
    let n = Notice {
        section,
        elevator,
        lots: Lots(lots as i64),
    };
    let mut next = b;
    next.notices[at] = n;
    next.filed = at + 1;
    next
}

// The book with the notice, or a refusal (01, Notice, 1; 01, Book, 5 and 6 and 7; 01, Bound, a).
#[tactic(auto, unfolding(rules::specs::Calls::first, rules::specs::Calls::notice_number, rules::specs::Calls::notice_answer))]
pub fn file_notice(b: Book, section: u8, elevator: u8, lots: u32) -> Result<Book, Refusal>
    ensures { answer_in b result ≡ Rules.notice_answer b section elevator lots }
{
    if !judge::good(b) {
        return Err(Refusal::BadBook);
    }
    check(b, section, elevator, lots)?;
    Ok(filed(b, section, elevator, lots))
}
