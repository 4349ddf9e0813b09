// The method whole, on the columns of a good book, and what it writes into the lists of an expiry.
#![tactic(auto)]

ghost use Rattle.std.specs.Prelude.{ℕ, ◌≡◌, ◌≤◌, true, map, nat_abs, length, replicate};
ghost use Rattle.rules.specs.Words.{entry_ℤ, less};
ghost use Rattle.rules.specs.Book.{good, held_sections};
ghost use Rattle.rules.specs.Expiry.Call;
ghost use Rattle.rules.specs.Lent.{lists_of, SameLists};
ghost use Rattle.method_laws.specs.Columns.{participants_of, Small};
ghost use Rattle.method_passes.specs.Formed.{lines_in};
ghost use Rattle.method_removal.specs.Removed.{kept_by, lapsed_by, Known};
ghost use Rattle.method_delivery.specs.Lent.{pairs_for, lines_for, kept_for, remaining_of, ColumnsBy, lines_over, sections_over, Room};

use method_columns::{failing, whole};
use method_giving::lists;
use method_passes::pass::Formed;
use method_passes::register::Register;
use method_register::columns::NoticeColumns;
use method_register::passes;
use method_steps::columns::SectionColumns;
use method_steps::remaining;
use rules::book::Book;
use rules::limits::SECTION_PLACES;
use rules::lists::ExpiryLists;

mod written;

// How many pairs and lines an expiry formed, and how many lines it kept. (`Expired` of `rules` has the book besides, which is not handed out here.)
#[derive(Clone, Copy)]
pub struct Counts {
    pub pairs: usize,
    pub lines: usize,
    pub kept: usize,
}

// What the method leaves each section (01, Expiry, 1.2).
fn keep(b: Book, columns: SectionColumns<'_>, notices: NoticeColumns<'_>, kept: &mut [u64])
    requires { (good b ≡ true) × (length kept.old ≡ b.held) × ColumnsBy b columns notices }
    ensures { (kept.new ≡ remaining_of b) × Small kept.new }
{
    let held = kept.len();
    let mut noticed = [0; SECTION_PLACES];
    let mut failed = [0; SECTION_PLACES];
    failing::noticed(notices.sellers, notices.lots, &mut noticed[..held]);
    failing::failing(b, &noticed[..held], false, &mut failed[..held]);
    remaining::remaining(columns, &failed[..held], kept);
}

// Of the lots that the method leaves each section those that lapse, `gone`, and those that it delivers; the rest of its position is terminated
// (01, Expiry call, 2; 02, a, 4 and 5).
fn write_sections(positions: &[i64], kept: &mut [u64], gone: &[u64], lists: &mut ExpiryLists)
    requires positions_len { (length positions.now ≡ length kept.old) × (length gone.now ≡ length kept.old) × (length kept.old ≤ 128) }
    requires by_index { ((i : ℕ) → nat_abs (entry_ℤ positions.now i) ≤ 1_000_000) × Small kept.old × Small gone.now }
    requires room { (length kept.old ≤ length lists.old.delivered.now) × (length kept.old ≤ length lists.old.terminated.now) × (length kept.old ≤ length lists.old.lapsed.now) }
    ensures lists_after { lists_of lists.new ≡ sections_over (less kept.old gone.now) (less (map nat_abs positions.now) kept.old) gone.now (lists_of lists.old) }
    ensures same_lists { SameLists lists.new lists.old }
{
    let held = kept.len();
    let mut ended = [0; SECTION_PLACES];
    remaining::terminated(positions, kept, &mut ended[..held]);
    written::small_lots(&ended[..held], lists.terminated);
    written::small_lots(gone, lists.lapsed);
    lists::less(kept, gone);
    written::small_lots(kept, lists.delivered);
}

// The lines, from the start of the register's lists (01, Expiry call, 2).
fn write_register(g: Register, lists: &mut ExpiryLists)
    requires { (g.count ≤ 382) × (382 ≤ length lists.old.buyers.now) × (382 ≤ length lists.old.elevators.now) × (382 ≤ length lists.old.sellers.now) × (382 ≤ length lists.old.lots.now) }
    ensures lists_after { lists_of lists.new ≡ lines_over (lines_in g) (lists_of lists.old) }
    ensures same_lists { SameLists lists.new lists.old }
{
    let count = g.count;
    let buying = g.buyers;
    let standing = g.elevators;
    let selling = g.sellers;
    let sold = g.lots;
    written::column(&buying[..count], lists.buyers);
    written::column(&standing[..count], lists.elevators);
    written::column(&selling[..count], lists.sellers);
    written::column(&sold[..count], lists.lots);
}

// The lines kept stand in the register's lists, and what is taken out lapses; it answers how many lines are kept. `gone` is noughts at first (02, a, 3 and 4 and 6).
fn take_out(participants: &[u32], g: Register, lists: &mut ExpiryLists, gone: &mut [u64]) -> usize
    requires known { Known participants.now g × (gone.old ≡ replicate (length participants.now) 0) }
    requires room { (382 ≤ length lists.old.buyers.now) × (382 ≤ length lists.old.elevators.now) × (382 ≤ length lists.old.sellers.now) × (382 ≤ length lists.old.lots.now) }
    ensures value { result ≡ length (kept_by participants.now (lines_in g)) }
    ensures lists_after { lists_of lists.new ≡ lines_over (kept_by participants.now (lines_in g)) (lists_of lists.old) }
    ensures same_lists { SameLists lists.new lists.old }
    ensures gone_after { gone.new ≡ lapsed_by participants.now (lines_in g) }
{
    let standing = method_removal::kept_lines(participants, g);
    method_removal::lapsed(participants, g, gone);
    write_register(standing, lists);
    standing.count
}

// What the method leaves each section, and the pairs and lines formed of it (01, Expiry, 1.2; 01, Expiry, 6.1).
fn form(
    b: Book,
    columns: SectionColumns<'_>,
    notices: NoticeColumns<'_>,
    kept: &mut [u64],
) -> Formed
    requires { (good b ≡ true) × (length kept.old ≡ b.held) × ColumnsBy b columns notices }
    ensures pairs_value { (result.pairs ≡ length (pairs_for b)) × (lines_in result.register ≡ lines_for b) }
    ensures kept_after { (kept.new ≡ remaining_of b) × Small kept.new }
{
    keep(b, columns, notices, kept);
    passes::form(columns, notices, kept)
}

// The method on the columns of a book (01, Expiry, 1.2; 01, Expiry, 6.1; 01, Expiry, 7; 02, a, 3).
fn run(
    b: Book,
    participants: &[u32],
    columns: SectionColumns<'_>,
    notices: NoticeColumns<'_>,
    lists: &mut ExpiryLists,
) -> Counts
    requires b_value { (good b ≡ true) × ColumnsBy b columns notices × (participants.now ≡ participants_of (held_sections b)) }
    requires room { Room b (lists_of lists.old) }
    ensures pairs_value { (result.pairs ≡ length (pairs_for b)) × (result.lines ≡ length (lines_for b)) × (result.kept ≡ length (kept_for b)) }
    ensures lists_after { lists_of lists.new ≡ Call.expiry_written b (lists_of lists.old) }
    ensures same_lists { SameLists lists.new lists.old }
{
    let held = b.held;
    let mut kept = [0; SECTION_PLACES];
    let formed = form(b, columns, notices, &mut kept[..held]);
    let register = formed.register;
    let mut gone = [0; SECTION_PLACES];
    let standing = take_out(participants, register, lists, &mut gone[..held]);
    write_sections(columns.positions, &mut kept[..held], &gone[..held], lists);
    Counts {
        pairs: formed.pairs,
        lines: register.count,
        kept: standing,
    }
}

// The expiry of a good book: the register, what is delivered, terminated and lapsed, how many pairs and lines were formed and how many lines kept
// (01, Expiry, 7; 01, Expiry call, 2; 01, Forms, 2; 02, a, 6).
pub fn deliver(b: Book, lists: &mut ExpiryLists) -> Counts
    requires { (good b ≡ true) × Room b (lists_of lists.old) }
    ensures pairs_value { (result.pairs ≡ length (pairs_for b)) × (result.lines ≡ length (lines_for b)) × (result.kept ≡ length (kept_for b)) }
    ensures lists_after { lists_of lists.new ≡ Call.expiry_written b (lists_of lists.old) }
    ensures same_lists { SameLists lists.new lists.old }
{
    let held = b.held;
    let filed = b.filed;
    let whole = whole::columns_of(b);
    let persons = whole.persons;
    let codes = whole.codes;
    let positions = whole.positions;
    let keys = whole.keys;
    let selling = whole.selling;
    let stands = whole.stands;
    let stock = whole.stock;
    let columns = SectionColumns {
        codes: &codes[..held],
        positions: &positions[..held],
        keys: &keys[..held],
    };
    let notices = NoticeColumns {
        sellers: &selling[..filed],
        stands: &stands[..filed],
        lots: &stock[..filed],
    };
    run(b, &persons[..held], columns, notices, lists)
}
