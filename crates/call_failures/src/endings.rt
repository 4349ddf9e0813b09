// The columns of the book, filled once, and all patterns over them.
ghost use Rattle.std.specs.Prelude.{◌^◌, ℕ, ◌≡◌, ◌≤◌, ◌<◌, true, false, length};
ghost use Rattle.rules.specs.Book.{good, section_at, held_sections};
ghost use Rattle.rules.specs.Expiry.{size};
ghost use Rattle.rules.specs.Failures.{delivered_in};
ghost use Rattle.method_laws.specs.Columns.{participants_of, Below};
ghost use Rattle.method_delivery.specs.Lent.{ColumnsBy};
ghost use Rattle.method_patterns.specs.Patterns.{book_under};
ghost use Rattle.method_patterns.specs.Endings.{Counted};

use method_columns::{failing, whole};
use method_giving::lists;
use method_patterns::marks::Marked;
use method_patterns::patterns;
use method_register::columns::NoticeColumns;
use method_steps::columns::SectionColumns;
use rules::book::{Book, Failures};
use rules::limits::SECTION_PLACES;

// All patterns on the columns of a book: what fails as marks stand, and what each section named fails by its mark (02, n, 1 and 4).
fn on_columns(
    b: Book,
    persons: &[u32],
    columns: SectionColumns<'_>,
    notices: NoticeColumns<'_>,
    asked: usize,
    named: &[u8],
) -> Failures
    requires b_value { (good b ≡ true) × (b.expired ≡ false) × ColumnsBy b columns notices × (persons.now ≡ participants_of (held_sections b)) }
    requires asked_lt_held { (asked < b.held) × Below b.held named.now × (length named.now ≤ 10) }
    ensures { Counted (size (section_at b asked)) (λ (q : ℕ). delivered_in asked (book_under b named.now q)) (2 ^ length named.now) result }
{
    let held = columns.codes.len();
    let mut noticed = [0; SECTION_PLACES];
    let mut fails = [0; SECTION_PLACES];
    let mut still = [0; SECTION_PLACES];
    let mut own = [0; SECTION_PLACES];
    failing::noticed(notices.sellers, notices.lots, &mut noticed[..held]);
    failing::failing(b, &noticed[..held], false, &mut fails[..held]);
    failing::failing(b, &noticed[..held], true, &mut still[..held]);
    lists::magnitudes(columns.positions, &mut own[..held]);
    let marked = Marked {
        fails: &fails[..held],
        own: &own[..held],
        still: &still[..held],
        named,
    };
    patterns::count(persons, columns, notices, marked, asked)
}

// In how many patterns the section asked is delivered in full, in part, not at all (02, n, 2 and 4).
pub fn counted(b: Book, asked: usize, named: &[u8]) -> Failures
    requires { (good b ≡ true) × (b.expired ≡ false) × (asked < b.held) × Below b.held named.now × (length named.now ≤ 10) }
    ensures { Counted (size (section_at b asked)) (λ (q : ℕ). delivered_in asked (book_under b named.now q)) (2 ^ length named.now) result }
{
    let held = b.held;
    let filed = b.filed;
    let whole = whole::columns_of(b);
    let persons = whole.persons;
    let codes = whole.codes;
    let positions = whole.positions;
    let keys = whole.keys;
    let selling = whole.selling;
    let stands = whole.stands;
    let stock = whole.stock;
    let columns = SectionColumns {
        codes: &codes[..held],
        positions: &positions[..held],
        keys: &keys[..held],
    };
    let notices = NoticeColumns {
        sellers: &selling[..filed],
        stands: &stands[..filed],
        lots: &stock[..filed],
    };
    on_columns(b, &persons[..held], columns, notices, asked, named)
}
