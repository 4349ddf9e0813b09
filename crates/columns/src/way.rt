// Which way the program is asked to go.
ghost use Rattle.std.specs.Prelude.{◌≡◌};
ghost use Rattle.rules.specs.Words.{same, bytes};
ghost use Rattle.columns.specs.Way.{way_asked};

// A file is turned, or one by column is turned back; or the arguments ask for neither.
#[derive(Clone, Copy, Debug, PartialEq, Eq)]
pub enum Way {
    Forth,
    Back,
    Unknown,
}

// Whether a word is `back`.
fn is_back(word: &[u8]) -> bool
    ensures { result ≡ same word.now (bytes "back") }
{
    word == b"back".as_slice()
}

// By how many words the program was given, its name first, and the second one: `back` alone, or none.
pub fn asked(given: usize, word: &[u8]) -> Way
    ensures { result ≡ way_asked given word.now }
{
    if given < 2 {
        return Way::Forth;
    }
    let back = is_back(word);
    if (given == 2) & back {
        return Way::Back;
    }
    Way::Unknown
}
