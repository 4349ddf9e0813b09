// The lots of the sections that a step takes, and 0 for all others.
ghost use Rattle.std.specs.Prelude.{ℕ, Bool, List, ◌≡◌, ◌<◌, cond, length};
ghost use Rattle.rules.specs.Words.{listed, entry, entry_ℤ};
ghost use Rattle.rules.specs.declared.book.Section.{Section};
ghost use Rattle.rules.specs.Book.{position_of};
ghost use Rattle.rules.specs.Expiry;
ghost use Rattle.method_laws.specs.Columns.{settlements_of, positions_of, AtMost, Below};
ghost use Rattle.method_laws.specs.Giving.{on_side};

// Whether two numbers are on opposite sides.
pub fn opposed(x: i64, y: i64) -> bool
    ensures { result ≡ Expiry.opposed x y }
{
    ((0 < x) & (y < 0)) | ((x < 0) & (0 < y))
}

// Whether two numbers are on the same side.
fn agreed(x: i64, y: i64) -> bool
    ensures { result ≡ Expiry.agreed x y }
{
    ((0 < x) & (0 < y)) | ((x < 0) & (y < 0))
}

// Whether two numbers are on the same side, or on opposite ones where `same` is false.
fn on_side(same: bool, x: i64, y: i64) -> bool
    ensures { result ≡ on_side same x y }
{
    if same {
        return agreed(x, y);
    }
    opposed(x, y)
}

// The lots of a section that a step takes, and 0 for another.
pub fn kept_if(test: bool, own: u64) -> u64
    ensures { result ≡ cond test own 0 }
{
    if test {
        return own;
    }
    0
}

// The lots of the sections whose numbers pass a test, and 0 of all others.
fn keep<F: Fn(usize) -> bool>(lots: &[u64], out: &mut [u64], test: F)
    requires out_len { length out.old ≡ length lots.now }
    requires tested { (i : ℕ) → i < length lots.now → F.pre test i }
    ensures { (passes : ℕ → Bool) → ((i : ℕ) (r : Bool) → i < length lots.now → F.post test i r → r ≡ passes i) → out.new ≡ listed (length lots.now) (λ (i : ℕ). cond (passes i) (entry lots.now i) 0) }
{
    for (i, own) in lots.iter().enumerate() {
        let passes = test(i);
        out[i] = kept_if(passes, *own);
    }
}

// Step 3: the sections opposite to d (01, Expiry, 3.3).
pub fn opposed_to(positions: &[i64], d: i64, lots: &[u64], out: &mut [u64])
    requires { (length positions.now ≡ length lots.now) × (length out.old ≡ length lots.now) }
    ensures { (ss : List Section) → positions.now ≡ positions_of ss → out.new ≡ Expiry.chosen ss (λ (s : Section). Expiry.opposed (position_of s) d) lots.now }
{
    keep(lots, out, |i| opposed(positions[i], d));
}

// Step 4: the sections on the side of their code's number; step 2: those on the other side, where `same` is false (01, Expiry, 2.2; 01, Expiry, 4.1).
pub fn on_side_in_codes(
    codes: &[u8],
    positions: &[i64],
    numbers: &[i64],
    same: bool,
    lots: &[u64],
    out: &mut [u64],
)
    requires codes_len { (length codes.now ≡ length lots.now) × (length positions.now ≡ length lots.now) × (length out.old ≡ length lots.now) × (length numbers.now ≡ 64) }
    requires below { Below 64 codes.now }
    ensures out_after { (ss : List Section) → codes.now ≡ settlements_of ss → positions.now ≡ positions_of ss → out.new ≡ Expiry.chosen ss (λ (s : Section). on_side same (position_of s) (entry_ℤ numbers.now s.settlement)) lots.now }
    ensures at_most { AtMost out.new lots.now }
{
    keep(
        lots,
        out,
        |i| on_side(same, positions[i], numbers[codes[i] as usize]),
    );
}
