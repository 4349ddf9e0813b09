// From a file's bytes to what the program prints of it.
#![tactic(auto)]

ghost use Rattle.std.specs.Prelude.{◌≡◌, length, replicate};
ghost use Rattle.rules.specs.Words.{over};
ghost use Rattle.rules.specs.Listing as Program;

use rules::limits::{LISTING_BYTES_MOST, REGISTER_PLACES, SECTION_PLACES};
use rules::lists::{ExpiryLists, ReadLists};

// The listing of a file: its bytes from the start of a buffer that has room for any, and how many there are (01, Program, 1).
// There is no heap: a listing of any length is handed out in a list of the most bytes.
#[derive(Drop)]
pub struct Listing {
    pub bytes: [u8; LISTING_BYTES_MOST],
    pub length: usize,
}

// What the program prints of a file, whatever its bytes (01, Program, 1 and 2 and 3; 01, Bound, a).
pub fn printed(file: &[u8]) -> Listing
    ensures length_value { result.length ≡ length (Program.printed file.now) }
    ensures bytes_value { result.bytes ≡ over (Program.printed file.now) (replicate 22_465 0) }
{
    let mut lent = ReadLists {
        expiry: ExpiryLists {
            buyers: &mut [0; REGISTER_PLACES],
            elevators: &mut [0; REGISTER_PLACES],
            sellers: &mut [0; REGISTER_PLACES],
            lots: &mut [0; REGISTER_PLACES],
            delivered: &mut [0; SECTION_PLACES],
            terminated: &mut [0; SECTION_PLACES],
            lapsed: &mut [0; SECTION_PLACES],
        },
        sums: &mut [0; SECTION_PLACES],
    };
    let mut bytes = [0; LISTING_BYTES_MOST];
    let length = match file_read::read(file, &mut lent) {
        Ok(read) => {
            let lists = shared_lists::of_read(&lent);
            listing::accepted(read.book, read.kept, lists, &mut bytes)
        }
        Err(e) => listing::refused(listing::number_of(e.refusal), e.place, &mut bytes),
    };
    Listing { bytes, length }
}
