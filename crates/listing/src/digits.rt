// A number in base ten.
ghost use Rattle.std.specs.Prelude.{◌≡◌, ◌<◌, ◌+◌, ◌%◌, length, drop};
ghost use Rattle.rules.specs.Words.{decimal};

// The digits of a number, written from the back; it answers where they start (01, Program, 1). (The loop ends where less than ten is left.)
pub fn laid(n: u64, digits: &mut [u8]) -> usize
    requires { length digits.old ≡ 20 }
    ensures { (result < 20) × (drop result digits.new ≡ decimal n) }
{
    let mut left = n;
    let mut from = 19;
    while 10 <= left {
        digits[from] = digit(left);
        left = left / 10;
        from -= 1;
    }
    digits[from] = digit(left);
    from
}

// The last digit of a number, in ASCII.
fn digit(n: u64) -> u8
    ensures { result ≡ 48 + n % 10 }
{
    48 + (n % 10) as u8
}
