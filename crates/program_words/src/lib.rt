// The words that a program is given: the number in a word of digits.
#![tactic(auto)]

ghost use Rattle.std.specs.Prelude.{◌≡◌};
ghost use Rattle.program_words.specs.Digits.{number_in, with_digit};

// A number with one digit more; none where the byte is no digit or the number passes 32 bits.
#[tactic(auto, unfolding(crate::specs::Digits::with_digit))]
fn with_digit(n: u32, b: u8) -> Option<u32>
    ensures { result ≡ with_digit n b }
{
    let digit = b.is_ascii_digit();
    if !digit {
        return None;
    }
    n.checked_mul(10)?.checked_add(u32::from(b - b'0'))
}

// The number in a word, in base ten (02, e, 2; 02, n, 1). It is no `parse`, which takes a plus sign in front too.
pub fn number(word: &[u8]) -> Option<u32>
    ensures { result ≡ number_in word.now }
{
    let length = word.len();
    if length == 0 {
        return None;
    }
    let mut n = 0;
    for b in word {
        n = with_digit(n, *b)?;
    }
    Some(n)
}
