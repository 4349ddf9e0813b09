// The section that a word of the desk means, given the keys of the sections held: a key is the number of a section code.
ghost use Rattle.numbers.specs.Bytes.{big_endian};
ghost use Rattle.std.specs.Prelude.{◌≡◌, ◌≤◌, true, length};
ghost use Rattle.rules.specs.declared.book.Book.{Book};
ghost use Rattle.rules.specs.Book.{good, held_sections};
ghost use Rattle.rules.specs.Failures.{section_meant};
ghost use Rattle.method_laws.specs.Columns.{keys_of};
ghost use Rattle.failures.specs.Meant.{place_of, number_below};

// A number that no section has, since at most 128 are held (01, Book, 1). It is no Option: `section_meant` has the number, and the call refuses it with 10.
const NO_SECTION: u8 = 255;

// The bytes of a section code (01, Book, 3).
const CODE_BYTES: usize = 7;

// The first place at which a key stands.
fn place_of(keys: &[u64], key: u64) -> u8
    requires { length keys.now ≤ 128 }
    ensures { result ≡ place_of keys.now key }
{
    for (i, own) in keys.iter().enumerate() {
        if *own == key {
            return i as u8;
        }
    }
    NO_SECTION
}

// The key of a word as long as a section code, whatever its bytes.
fn key_of(word: &[u8]) -> u64
    requires { length word.now ≡ 7 }
    ensures { result ≡ big_endian word.now }
{
    section_code::key([
        word[0], word[1], word[2], word[3], word[4], word[5], word[6],
    ])
}

// The section number that a word is, of so many held.
fn number_below(held: usize, word: &[u8]) -> u8
    requires { held ≤ 128 }
    ensures { result ≡ number_below held word.now }
{
    let Some(number) = program_words::number(word) else {
        return NO_SECTION;
    };
    if (number as usize) < held {
        return number as u8;
    }
    NO_SECTION
}

// A word of seven bytes is a section code, any other a section number; where the book holds no such section, none (02, n, 1 and 5).
pub fn meant(keys: &[u64], word: &[u8]) -> u8
    requires { length keys.now ≤ 128 }
    ensures { (b : Book) → good b ≡ true → keys.now ≡ keys_of (held_sections b) → result ≡ section_meant b word.now }
{
    if word.len() == CODE_BYTES {
        return place_of(keys, key_of(word));
    }
    number_below(keys.len(), word)
}
