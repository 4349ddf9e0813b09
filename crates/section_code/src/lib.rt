// Section codes, and the number that a code stands for: two codes are the same where their numbers are equal, and one stands before
// the other in byte order where its number is lower.
#![tactic(auto)]

ghost use Rattle.numbers.specs.Bytes.{big_endian};
ghost use Rattle.std.specs.Prelude.{◌≡◌, ◌+◌, ◌*◌, ◌<◌};
ghost use Rattle.rules.specs.Words.{same};
ghost use Rattle.rules.specs.Book.{byte_good, section_code_good};

// Whether a byte is a digit or a capital letter (01, Book, 3).
fn byte_good(byte: u8) -> bool
    ensures { result ≡ byte_good byte }
{
    matches!(byte, b'0'..=b'9' | b'A'..=b'Z')
}

// Whether a section code has seven bytes, as its type says, and each of them is allowed (01, Book, 3).
pub fn code_good(code: [u8; 7]) -> bool
    ensures { result ≡ section_code_good code }
{
    for byte in code {
        if !byte_good(byte) {
            return false;
        }
    }
    true
}

// Seven bytes in one number, the highest first.
fn joined(a: u8, b: u8, c: u8, d: u8, e: u8, f: u8, g: u8) -> u64
    ensures value { result ≡ ((((((a * 256 + b) * 256 + c) * 256 + d) * 256 + e) * 256 + f) * 256 + g) }
    ensures upper_bound { result < 72_057_594_037_927_936 }
{
    u64::from_be_bytes([0, a, b, c, d, e, f, g])
}

// The number of a section code; it is below 256^7 (01, Forms, 7).
pub fn key(code: [u8; 7]) -> u64
    ensures value { result ≡ big_endian code }
    ensures upper_bound { result < 72_057_594_037_927_936 }
{
    joined(
        code[0], code[1], code[2], code[3], code[4], code[5], code[6],
    )
}

// Whether two section codes are the same seven bytes (01, Forms, 7).
pub fn same_code(a: [u8; 7], b: [u8; 7]) -> bool
    ensures { result ≡ same a b }
{
    a == b
}
