// Columns of keys, a number for each section or notice: no two are alike.
ghost use Rattle.std.specs.Prelude.{◌≡◌, eqb};
ghost use Rattle.rules.specs.Words.{apart};

// Whether no two numbers are alike.
pub fn apart(numbers: &[u64]) -> bool
    ensures { result ≡ apart eqb numbers.now }
{
    for (i, number) in numbers.iter().enumerate() {
        if numbers[i + 1..].contains(number) {
            return false;
        }
    }
    true
}
