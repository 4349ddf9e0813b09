// Lots, which are never below 0.
ghost use Rattle.std.specs.Prelude.{◌≡◌, min};

// The smaller of two numbers.
pub fn smaller(x: u64, y: u64) -> u64
    ensures { result ≡ min x y }
{
    x.min(y)
}
