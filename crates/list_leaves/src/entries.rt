// Entry i of a list, 0 past its end.
ghost use Rattle.std.specs.Prelude.{◌≡◌, get_or, pos};

// A number of a width: lots, keys, positions, places, participants.
pub trait Number: Copy {
    ghost zero: { Self };

    fn zero() -> Self
        ensures { result ≡ zero };
}

impl Number for u8 {
    ghost zero = { 0 };

    fn zero() -> u8 {
        0
    }
}

impl Number for u32 {
    ghost zero = { 0 };

    fn zero() -> u32 {
        0
    }
}

impl Number for u64 {
    ghost zero = { 0 };

    fn zero() -> u64 {
        0
    }
}

impl Number for usize {
    ghost zero = { 0 };

    fn zero() -> usize {
        0
    }
}

impl Number for i64 {
    ghost zero = { pos 0 };

    fn zero() -> i64 {
        0
    }
}

// Entry i, 0 past the end: of whole numbers it is `entry`, of numbers with a sign `entry_ℤ`.
pub fn nth<N: Number>(list: &[N], i: usize) -> N
    ensures { result ≡ get_or list.now i N.zero }
{
    list.get(i).copied().unwrap_or(N::zero())
}
