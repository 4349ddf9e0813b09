// All columns of a book, filled once.
ghost use Rattle.std.specs.Prelude.{◌≡◌, true};
ghost use Rattle.rules.specs.Book.{good};
ghost use Rattle.method_columns.specs.Whole.{Whole};

use crate::{notices, participants, sections};
use rules::book::Book;
use rules::limits::{NOTICE_PLACES, SECTION_PLACES};

// Of the sections held participants, settlement codes, positions and the keys of their codes; of the notices filed sellers, elevators and lots.
// An array for each column, and not one of structs: a step is lent the columns that it reads as slices, and none is copied (fixed memory, no heap).
#[derive(Clone, Copy)]
pub struct Columns {
    pub persons: [u32; SECTION_PLACES],
    pub codes: [u8; SECTION_PLACES],
    pub positions: [i64; SECTION_PLACES],
    pub keys: [u64; SECTION_PLACES],
    pub selling: [u8; NOTICE_PLACES],
    pub stands: [u8; NOTICE_PLACES],
    pub stock: [u64; NOTICE_PLACES],
}

// The columns of a good book; places past those in use are noughts (01, Book, 3; 01, Expiry, 5.1).
pub fn columns_of(b: Book) -> Columns
    requires { good b ≡ true }
    ensures { Whole b result }
{
    let held = b.held;
    let filed = b.filed;
    let mut persons = [0; SECTION_PLACES];
    let mut codes = [0; SECTION_PLACES];
    let mut positions = [0; SECTION_PLACES];
    let mut keys = [0; SECTION_PLACES];
    let mut selling = [0; NOTICE_PLACES];
    let mut stands = [0; NOTICE_PLACES];
    let mut stock = [0; NOTICE_PLACES];
    participants::fill(b, &mut persons[..held]);
    sections::fill(
        b,
        &mut codes[..held],
        &mut positions[..held],
        &mut keys[..held],
    );
    notices::fill(
        b,
        &mut selling[..filed],
        &mut stands[..filed],
        &mut stock[..filed],
    );
    Columns {
        persons,
        codes,
        positions,
        keys,
        selling,
        stands,
        stock,
    }
}
