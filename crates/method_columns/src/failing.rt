// Step 1: who fails.
ghost use Rattle.std.specs.Prelude.{List, ◌≡◌, true, ◌≤◌, length, replicate};
ghost use Rattle.rules.specs.Words.{listed};
ghost use Rattle.rules.specs.declared.book.Notice.{Notice};
ghost use Rattle.rules.specs.Book.{good, filed_notices};
ghost use Rattle.rules.specs.Expiry.Failing;
ghost use Rattle.rules.specs.Expiry.Passes.{sellers_in};
ghost use Rattle.method_laws.specs.Columns.{notice_lots_in, Below, Small};
ghost use Rattle.method_columns.specs.Failing.{failed_lots, failing_with};

use crate::by_section;
use rules::book::{Book, Section};

// The lots of each section's notices, in one walk over the notices; `sums` is noughts at first (01, Expiry, 1.1).
pub fn noticed(sellers: &[u8], lots: &[u64], sums: &mut [u64])
    requires sellers_len_bound { (length sellers.now ≤ 256) × (length lots.now ≡ length sellers.now) × (sums.old ≡ replicate (length sums.old) 0) }
    requires below { Below (length sums.old) sellers.now × Small lots.now }
    ensures { (ns : List Notice) → sellers.now ≡ sellers_in ns → lots.now ≡ notice_lots_in ns → sums.new ≡ listed (length sums.old) (Failing.noticed ns) }
{
    by_section::add(sellers, lots, sums);
}

// The lots of a section with so many lots in its notices where it fails, and 0 where it is sound; its condition counts as met where `met` says so (01, Expiry, 1.1; 01, Expiry, 1.2; 02, n, 1).
fn failed(met: bool, s: Section, noticed: u64) -> u64
    ensures { result ≡ failed_lots met s noticed }
{
    let position = s.position.0;
    let own = position.unsigned_abs();
    let sound = 0;
    let condition = met | s.met;
    if !condition {
        return own;
    }
    if 0 <= position {
        return sound;
    }
    if !s.seller {
        return own;
    }
    if noticed == own {
        return sound;
    }
    own
}

// The lots of the failing sections, and 0 for the sound, given the lots of each section's notices; with `met`, as if every condition were met (01, Expiry, 1.2; 02, n, 1).
pub fn failing(b: Book, sums: &[u64], met: bool, lots: &mut [u64])
    requires { (good b ≡ true) × (length lots.old ≡ b.held) × (sums.now ≡ listed b.held (Failing.noticed (filed_notices b))) }
    ensures { lots.new ≡ failing_with met b }
{
    for i in 0..b.held {
        lots[i] = failed(met, b.sections[i], sums[i]);
    }
}
