// What is printed of a call.
ghost use Rattle.std.specs.Prelude.{◌≤◌, length};
ghost use Rattle.rules.specs.Answers.{failures_answer_in};
ghost use Rattle.rules.specs.Failures.{failures_answer, answer_row};
ghost use Rattle.listing.specs.Laid.{Laid};
ghost use Rattle.failures.specs.Prints.{counts_row};

use listing::text;
use listing::text::{LINE_END, SPACE};
use rules::book::{Book, Failures};
use rules::refusal::Refusal;

// Three numbers of 32 bits, each with the byte that ends it.
pub const ROW_BYTES: usize = 33;

// The three counts (02, n, 2).
fn counted(counts: Failures, out: &mut [u8]) -> usize
    requires { 33 ≤ length out.old }
    ensures laid { Laid out.old 0 (counts_row counts) out.new result }
    ensures upper_bound { result ≤ 33 }
{
    let full = u64::from(counts.full);
    let part = u64::from(counts.part);
    let none = u64::from(counts.none);
    let at = text::number(full, SPACE, out, 0);
    let at = text::number(part, SPACE, out, at);
    text::number(none, LINE_END, out, at)
}

// The three counts, or the number of a refusal, from the start of a buffer. It answers how many bytes were written (02, n, 2 and 5).
#[tactic(auto, unfolding(rules::specs::Failures::answer_row))]
fn row(answer: Result<Failures, Refusal>, out: &mut [u8]) -> usize
    requires { 33 ≤ length out.old }
    ensures laid { Laid out.old 0 (answer_row (failures_answer_in answer)) out.new result }
    ensures upper_bound { result ≤ 33 }
{
    match answer {
        Ok(counts) => counted(counts, out),
        Err(refusal) => listing::refusal(listing::number_of(refusal), out, 0),
    }
}

// The call on a book, and its row (02, n, 1 and 2 and 5).
pub fn printed(b: Book, asked: u8, named: &[u8], out: &mut [u8]) -> usize
    requires { 33 ≤ length out.old }
    ensures laid { Laid out.old 0 (answer_row (failures_answer b asked named.now)) out.new result }
    ensures upper_bound { result ≤ 33 }
{
    let answer = call_failures::failures(b, asked, named);
    row(answer, out)
}
