// A block of trades in one call.
#![tactic(auto)]

ghost use Rattle.std.specs.Prelude.{◌≡◌, ◌+◌, ◌<◌, true, not, ◌||◌, eqb, length};
ghost use Rattle.rules.specs.Answers.{number_in, answer_in};
ghost use Rattle.rules.specs.Book.{good};
ghost use Rattle.rules.specs.Blocks as Rules;
ghost use Rattle.rules.specs.Calls.{handed_out};
ghost use Rattle.rules.specs.Lent.{block_of};
ghost use Rattle.call_block.specs.Lists.{Equal, standing};

use judge::terms;
use rules::book::{Book, Section};
use rules::limits::SECTION_PLACES;
use rules::lists::TradeLists;
use rules::refusal::Refusal;

// Whether some list of a block has another length than its answers (02, b, 6).
fn unequal(block: TradeLists, answers: usize) -> bool
    ensures { result ≡ (not (eqb (length block.entry.buyers.now) answers) || (not (eqb (length block.entry.sellers.now) answers) || (not (eqb (length block.entry.prices.now) answers) || not (eqb (length block.entry.lots.now) answers)))) }
{
    let later = (block.prices.len() != answers) | (block.lots.len() != answers);
    (block.buyers.len() != answers) | ((block.sellers.len() != answers) | later)
}

// Whether a block is accepted; 1, then 29 (02, b, 6).
#[tactic(auto, using(crate::proofs::Laws::block_number_lem))]
fn check(b: Book, block: TradeLists, answers: usize) -> Result<(), Refusal>
    ensures { number_in result ≡ Rules.block_number b (block_of block.entry) answers }
{
    let good = judge::good(b);
    let unequal = unequal(block, answers);
    if !good {
        return Err(Refusal::BadBook);
    }
    if unequal {
        return Err(Refusal::UnequalLists);
    }
    Ok(())
}

// The number that a trade answers, 0 where it is accepted (01, Book, 6; 02, b, 3).
fn number_of(answer: Result<(), Refusal>) -> u8
    ensures { result ≡ number_in answer }
{
    match answer {
        Ok(()) => 0,
        Err(refusal) => refusal as u8,
    }
}

// One trade more is counted where it was accepted (01, Book, 1).
fn counted(answer: Result<(), Refusal>, trades: u32) -> u32
    requires { number_in answer ≡ 0 → trades < 2_000 }
    ensures { result ≡ handed_out (number_in answer) (trades + 1) trades }
{
    match answer {
        Ok(()) => trades + 1,
        Err(_) => trades,
    }
}

// A book with other sections and another count of trades (01, Book, 1).
fn with_trades(b: Book, sections: [Section; SECTION_PLACES], trades: u32) -> Book
    ensures { result ≡ standing b sections trades }
{
    let mut next = b;
    next.sections = sections;
    next.trades = trades;
    next
}

// The trades of a block on a good book, each on what those before it left: the book after them, and each one's number (02, b, 3 and 4).
// (By number: five lists stand side by side, and a zip of five names each entry three tuples deep.)
fn offer(b: Book, block: TradeLists, answers: &mut [u8]) -> Book
    requires { (good b ≡ true) × Equal (block_of block) (length answers.old) }
    ensures value { result ≡ Rules.book_after_offers b (Rules.offers_of (block_of block.entry)) }
    ensures answers_after { answers.new ≡ Rules.offer_numbers b (Rules.offers_of (block_of block.entry)) }
{
    let w = b.w;
    let r = b.r;
    let held = b.held;
    let expired = b.expired;
    let mut sections = b.sections;
    let mut trades = b.trades;
    for i in 0..answers.len() {
        let buyer = block.buyers[i];
        let seller = block.sellers[i];
        let price = block.prices[i];
        let count = block.lots[i];
        let to = call_trade::place(buyer);
        let from = call_trade::place(seller);
        let s = sections[to];
        let t = sections[from];
        let answer = call_trade::offered(
            expired, held, r, trades, s, t, buyer, seller, price, count,
        );
        let value = terms::value_at(w, r, price);
        sections[to] = call_trade::bought(answer, s, count, value);
        sections[from] = call_trade::sold(answer, t, count, value);
        trades = counted(answer, trades);
        answers[i] = number_of(answer);
    }
    with_trades(b, sections, trades)
}

// A block: the book after its trades and an answer for each of them; or a refusal, with the answers as they were
// (02, b, 2 and 3 and 4 and 6; 01, Book, 5 and 6 and 7; 01, Bound, a).
#[tactic(auto, unfolding(rules::specs::Blocks::block_answer, rules::specs::Blocks::block_answers))]
pub fn trade_block(b: Book, block: TradeLists, answers: &mut [u8]) -> Result<Book, Refusal>
    ensures value { answer_in b result ≡ Rules.block_answer b (block_of block.entry) (length answers.old) }
    ensures answers_after { answers.new ≡ Rules.block_answers b (block_of block.entry) answers.old }
{
    check(b, block, answers.len())?;
    Ok(offer(b, block, answers))
}
