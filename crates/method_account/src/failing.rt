// Step 1: who fails.
ghost use Rattle.std.specs.Prelude.{◌≡◌, true, take};
ghost use Rattle.rules.specs.Book.{good, filed_notices};
ghost use Rattle.rules.specs.Expiry.Passes.{sellers_in};
ghost use Rattle.method_laws.specs.Columns.{notice_lots_in, Small};
ghost use Rattle.method_account.specs.Steps.{FailedOf};

use method_columns::failing;
use rules::book::Book;
use rules::limits::SECTION_PLACES;

// The lots of each section's notices, and the lots of the failing sections, 0 for the sound.
#[derive(Clone, Copy)]
pub struct Failed {
    pub noticed: [u64; SECTION_PLACES],
    pub failed: [u64; SECTION_PLACES],
}

// What the notices of each section come to, and what fails of it (01, Expiry, 1.1; 01, Expiry, 1.2).
pub fn who_fails(b: Book, selling: &[u8], stock: &[u64]) -> Failed
    requires { (good b ≡ true) × (selling.now ≡ sellers_in (filed_notices b)) × (stock.now ≡ notice_lots_in (filed_notices b)) }
    ensures { FailedOf b result × Small (take b.held result.failed) }
{
    let held = b.held;
    let mut noticed = [0; SECTION_PLACES];
    let mut failed = [0; SECTION_PLACES];
    failing::noticed(selling, stock, &mut noticed[..held]);
    failing::failing(b, &noticed[..held], false, &mut failed[..held]);
    Failed { noticed, failed }
}
