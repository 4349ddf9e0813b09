// What fails of each section under a pattern.
ghost use Rattle.std.specs.Prelude.{◌≡◌, cond, length};
ghost use Rattle.method_laws.specs.Columns.{Below};
ghost use Rattle.method_patterns.specs.Patterns.{fails_under};

// What fails of each section as its marks stand, what each has, what of it fails with its condition met, and the sections named: lent together.
#[derive(Clone, Copy)]
pub struct Marked<'a> {
    pub fails: &'a [u64],
    pub own: &'a [u64],
    pub still: &'a [u64],
    pub named: &'a [u8],
}

// What fails of a section named: all its lots, or with its condition met those that fail still (02, n, 1).
fn failing(met: bool, own: u64, still: u64) -> u64
    ensures { result ≡ cond met still own }
{
    if met {
        return still;
    }
    own
}

// The sections named, each marked by a digit of the pattern in base two; of all others the same fails as before (02, n, 1).
pub fn mark(named: &[u8], pattern: u32, own: &[u64], still: &[u64], failed: &mut [u64])
    requires { (length own.now ≡ length failed.old) × (length still.now ≡ length failed.old) × Below (length failed.old) named.now }
    ensures { failed.new ≡ fails_under own.now still.now failed.old named.now pattern }
{
    let mut rest = pattern;
    for section in named {
        let i = *section as usize;
        let met = rest % 2 == 1;
        failed[i] = failing(met, own[i], still[i]);
        rest = rest / 2;
    }
}
