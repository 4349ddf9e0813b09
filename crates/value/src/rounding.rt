// The one rounding: quotient and remainder, the case of the remainder, the result. Each is bound by its definition, for every n and d.
ghost use Rattle.std.specs.Prelude.{◌≡◌, ◌<◌};
ghost use Rattle.rules.specs.Rounding;

use rules::rounding::{Case, Division};

// Quotient and remainder (02, c, 2). A divisor 0 leaves all of n, as in the definition; no K and no V has it.
pub fn divided(n: u64, d: u64) -> Division
    ensures { result ≡ Rounding.divided n d }
{
    if d == 0 {
        return Division {
            quotient: 0,
            remainder: n,
        };
    }
    let quotient = n / d;
    let remainder = n % d;
    Division {
        quotient,
        remainder,
    }
}

// The case of a remainder (02, c, 2). The divisor is halved, which cannot overflow, where the definition doubles the remainder: the half of an odd divisor
// lies between two whole numbers.
pub fn case_of(remainder: u64, d: u64) -> Case
    ensures { result ≡ Rounding.case_of remainder d }
{
    let below = d / 2;
    let above = below + d % 2;
    if remainder < above {
        return Case::BelowHalf;
    }
    if remainder == below {
        return Case::AtHalf;
    }
    Case::AboveHalf
}

// The result in each case (01, Value, 4; 02, c, 3).
pub fn result_of(quotient: u64, case: Case) -> u64
    requires { Rounding.result_of quotient case < 18_446_744_073_709_551_616 }
    ensures { result ≡ Rounding.result_of quotient case }
{
    match case {
        Case::BelowHalf => quotient,
        Case::AtHalf => quotient + 1,
        Case::AboveHalf => quotient + 1,
    }
}

// n / d to a whole number (01, Value, 4; 02, c, 2).
pub fn rounded(n: u64, d: u64) -> u64
    ensures { result ≡ Rounding.rounded n d }
{
    let division = divided(n, d);
    let quotient = division.quotient;
    let remainder = division.remainder;
    result_of(quotient, case_of(remainder, d))
}
