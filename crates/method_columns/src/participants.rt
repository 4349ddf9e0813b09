// The participants of the sections held.
ghost use Rattle.std.specs.Prelude.{◌≡◌, true, length};
ghost use Rattle.rules.specs.Book.{good, held_sections};
ghost use Rattle.method_laws.specs.Columns.{participants_of};

use rules::book::Book;

// In one walk (01, Book, 3; 02, a, 1).
pub fn fill(b: Book, participants: &mut [u32])
    requires { (good b ≡ true) × (length participants.old ≡ b.held) }
    ensures { participants.new ≡ participants_of (held_sections b) }
{
    for i in 0..b.held {
        let s = b.sections[i];
        participants[i] = s.participant;
    }
}
