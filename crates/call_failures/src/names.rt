// The sections that are named.
ghost use Rattle.std.specs.Prelude.{◌≡◌, not, ◌||◌, leb, ltb, eqb, length};
ghost use Rattle.rules.specs.Words.{some, apart};

use judge::keys;
use rules::limits::NAMED_MOST;

// Whether some section named is not held (02, n, 5).
pub fn some_unknown(held: usize, named: &[u8]) -> bool
    ensures { result ≡ some (leb held) named.now }
{
    named.iter().any(|section| held <= (*section as usize))
}

// The sections named as keys.
fn widen(named: &[u8], wide: &mut [u64])
    requires { length wide.old ≡ length named.now }
    ensures { wide.new ≡ named.now }
{
    for (i, section) in named.iter().enumerate() {
        wide[i] = *section as u64;
    }
}

// Whether too many sections are named, or one twice (02, n, 5).
pub fn unfit(named: &[u8]) -> bool
    ensures { result ≡ (ltb 10 (length named.now) || not (apart eqb named.now)) }
{
    let count = named.len();
    if NAMED_MOST < count {
        return true;
    }
    let mut wide = [0; NAMED_MOST];
    widen(named, &mut wide[..count]);
    !keys::apart(&wide[..count])
}
