// A session: margins are paid, and bases start anew from the session's value.
#![tactic(auto)]

ghost use Rattle.std.specs.Prelude.{ℕ, ◌≡◌, true, cond, ◌≤◌, ◌<◌, nat_abs, length, pos, ◌+ℤ◌};
ghost use Rattle.rules.specs.Book.{good, position_of, basis_of};
ghost use Rattle.rules.specs.Answers.{number_in, answer_in};
ghost use Rattle.rules.specs.Calls as Rules;
ghost use Rattle.call_session.specs.Paid.{paid_to, paid_into};
ghost use Rattle.std.specs.Int.{w64};
ghost use Rattle.std.proofs.Common.{SFits};

use judge::terms;
use rules::book::{Book, LastSession, Section};
use rules::limits::PRICE_MOST;
use rules::refusal::Refusal;
use rules::units::Kopecks;
use value::signed;

// Whether a session on a good book is accepted, or why it is refused; `room` is the length of the margin list (01, Session, 1).
#[tactic(auto, unfolding(rules::specs::Calls::first, rules::specs::Calls::session_number))]
pub fn check(b: Book, price: u32, room: usize) -> Result<(), Refusal>
    requires { good b ≡ true }
    ensures { number_in result ≡ Rules.session_number b price room }
{
    if b.expired {
        return Err(Refusal::Expired);
    }
    if !terms::counted(price, PRICE_MOST) {
        return Err(Refusal::BadSessionPrice);
    }
    if room < b.held {
        return Err(Refusal::MarginsShort);
    }
    Ok(())
}

// The kind of session that comes next (01, Session, 2).
fn following(last: LastSession) -> LastSession
    ensures { result ≡ Rules.following last }
{
    match last {
        LastSession::None => LastSession::Day,
        LastSession::Day => LastSession::Evening,
        LastSession::Evening => LastSession::Day,
    }
}

// A section's margin: position times value, less basis (01, Session, 3).
fn margin(s: Section, value: Kopecks) -> i64
    requires s_bound { (nat_abs (position_of s) ≤ 1_000_000) × (nat_abs (basis_of s) ≤ 21_000_000_000_000_000) }
    requires value_bound { nat_abs value.0 ≤ 1_000_000_000 }
    ensures { result ≡ Rules.margin_of value s }
{
    let position = s.position;
    let basis = s.basis.0;
    let worth = value::worth(position, value).0;
    signed::difference(worth, basis)
}

// A section after the session: its basis is position times value (01, Session, 3).
fn settled(s: Section, value: Kopecks) -> Section
    requires { (nat_abs (position_of s) ≤ 1_000_000) × (nat_abs value.0 ≤ 1_000_000_000) }
    ensures { result ≡ Rules.settled value s }
{
    let position = s.position;
    let basis = value::worth(position, value);
    let mut next = s;
    next.basis = basis;
    next
}

// A margin, on top of the entry where margins are added up (01, Session, 3; 01, Reading, 5).
fn paid(added: bool, entry: i64, margin: i64) -> i64
    requires { SFits w64 (cond added entry (pos 0) +ℤ margin) }
    ensures { result ≡ cond added entry (pos 0) +ℤ margin }
{
    if added {
        return signed::sum(entry, margin);
    }
    margin
}

// The book after the session. Each section's margin goes into its place of the list, or is added to what stands there (01, Session, 3; 01, Reading, 5).
pub fn after_session(b: Book, price: u32, added: bool, list: &mut [i64]) -> Book
    requires { (Rules.session_number b price (length list.old) ≡ 0) × ((i : ℕ) → i < b.held → SFits w64 (paid_to added b price list.old i)) }
    ensures value { result ≡ Rules.after_session b price }
    ensures list_after { list.new ≡ paid_into added b price list.old }
{
    let value = terms::value_at(b.w, b.r, price);
    let held = b.held;
    let mut sections = b.sections;
    for i in 0..held {
        let s = b.sections[i];
        let entry = list[i];
        list[i] = paid(added, entry, margin(s, value));
        sections[i] = settled(s, value);
    }
    let last = b.last;
    let next = following(last);
    let lot = b.lot;
    let notices = b.notices;
    Book {
        lot,
        w: b.w,
        r: b.r,
        sections,
        held,
        notices,
        filed: b.filed,
        last: next,
        price,
        trades: 0,
        expired: b.expired,
    }
}

// A session: margins in the list and the book after it, or a refusal with the list as it was (01, Session, 1 and 2 and 3; 01, Book, 5 and 6 and 7; 01, Bound, a).
#[tactic(auto, unfolding(rules::specs::Calls::first, rules::specs::Calls::session_number, rules::specs::Calls::session_answer, rules::specs::Calls::session_margins))]
pub fn hold_session(b: Book, price: u32, margins: &mut [i64]) -> Result<Book, Refusal>
    ensures value { answer_in b result ≡ Rules.session_answer b price (length margins.old) }
    ensures margins_after { margins.new ≡ Rules.session_margins b price margins.old }
{
    if !judge::good(b) {
        return Err(Refusal::BadBook);
    }
    check(b, price, margins.len())?;
    Ok(after_session(b, price, false, margins))
}
