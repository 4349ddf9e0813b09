// The columns of the sections held.
ghost use Rattle.std.specs.Prelude.{◌≡◌, true, length};
ghost use Rattle.rules.specs.Book.{good, held_sections};
ghost use Rattle.method_laws.specs.Columns.{settlements_of, positions_of, keys_of};

use rules::book::Book;

// Settlement codes, positions, and the keys of the section codes, in one walk (01, Book, 3; 01, Forms, 7).
pub fn fill(b: Book, codes: &mut [u8], positions: &mut [i64], keys: &mut [u64])
    requires { (good b ≡ true) × (length codes.old ≡ b.held) × (length positions.old ≡ b.held) × (length keys.old ≡ b.held) }
    ensures codes_after { codes.new ≡ settlements_of (held_sections b) }
    ensures positions_after { positions.new ≡ positions_of (held_sections b) }
    ensures keys_after { keys.new ≡ keys_of (held_sections b) }
{
    for i in 0..b.held {
        let s = b.sections[i];
        let position = s.position.0;
        let code = s.code;
        codes[i] = s.settlement;
        positions[i] = position;
        keys[i] = section_code::key(code);
    }
}
