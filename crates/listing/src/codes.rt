// The section codes of a book, end to end.
ghost use Rattle.std.specs.Prelude.{ℕ, ◌≡◌, ◌<◌, length};
ghost use Rattle.rules.specs.Book.{section_at};
ghost use Rattle.listing.specs.Columns.{code_at};

use rules::book::Book;

// Seven bytes for each place of a book: its section's code (01, Forms, 7).
pub fn laid(b: Book, codes: &mut [u8])
    requires { length codes.old ≡ 896 }
    ensures { (i : ℕ) → i < 128 → code_at codes.new i ≡ (section_at b i).code }
{
    for (i, s) in b.sections.iter().enumerate() {
        let at = 7 * i;
        codes[at..at + 7].copy_from_slice(&s.code);
    }
}
