// Signed arithmetic in leaves that ask only that the result fits, and the test of a limit.
ghost use Rattle.std.specs.Prelude.{◌≡◌, nat_abs, ◌+ℤ◌, ◌-ℤ◌, ◌*ℤ◌};
ghost use Rattle.std.specs.Int.{w64};
ghost use Rattle.std.proofs.Common.{SFits};
ghost use Rattle.numbers.specs.Whole;

pub fn sum(x: i64, y: i64) -> i64
    requires { SFits w64 (x +ℤ y) }
    ensures { result ≡ x +ℤ y }
{
    x + y
}

pub fn difference(x: i64, y: i64) -> i64
    requires { SFits w64 (x -ℤ y) }
    ensures { result ≡ x -ℤ y }
{
    x - y
}

pub fn product(x: i64, y: i64) -> i64
    requires { SFits w64 (x *ℤ y) }
    ensures { result ≡ x *ℤ y }
{
    x * y
}

// The size of x.
pub fn size(x: i64) -> u64
    ensures { result ≡ nat_abs x }
{
    x.unsigned_abs()
}

// Whether x lies within ±limit.
pub fn within(x: i64, limit: u64) -> bool
    ensures { result ≡ Whole.within x limit }
{
    size(x) <= limit
}
