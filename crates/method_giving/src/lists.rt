// Lists of lots.
ghost use Rattle.std.specs.Prelude.{◌≡◌, map, ℕ, ◌≤◌, ◌-◌, length, nat_abs};
ghost use Rattle.rules.specs.Words.{entry, total};
ghost use Rattle.numbers.specs.Lists as Lists;

// What is left of each entry when some of it is taken.
pub fn less(lots: &mut [u64], taken: &[u64])
    requires { length taken.now ≡ length lots.old }
    ensures { lots.new ≡ Lists.less lots.old taken.now }
{
    for (i, gone) in taken.iter().enumerate() {
        lots[i] = lots[i].saturating_sub(*gone);
    }
}

// The size of each number.
pub fn magnitudes(numbers: &[i64], out: &mut [u64])
    requires { length out.old ≡ length numbers.now }
    ensures { out.new ≡ map nat_abs numbers.now }
{
    for (i, z) in numbers.iter().enumerate() {
        out[i] = z.unsigned_abs();
    }
}

// The sum of a list of at most 256 numbers that are not too large.
pub fn sum(lots: &[u64]) -> u64
    requires { (length lots.now ≤ 256) × ((i : ℕ) → entry lots.now i ≤ 1_000_000_000) }
    ensures { result ≡ total lots.now }
{
    lots.iter().sum()
}
