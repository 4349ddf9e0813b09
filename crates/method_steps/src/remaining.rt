// Steps 1 to 3 together.
ghost use Rattle.std.specs.Prelude.{List, ◌≡◌, map, nat_abs, length};
ghost use Rattle.rules.specs.Words.{less};
ghost use Rattle.rules.specs.declared.book.{Section.Section, Notice.Notice};
ghost use Rattle.rules.specs.Expiry.Across;
ghost use Rattle.rules.specs.Expiry.Call;
ghost use Rattle.rules.specs.Expiry.Codes;
ghost use Rattle.rules.specs.Expiry.Failing;
ghost use Rattle.method_laws.specs.Columns.{NetsSmall, Small};
ghost use Rattle.method_steps.specs.Held.{Lent, Of};

use crate::columns::SectionColumns;
use crate::{across, in_codes};
use method_giving::lists;
use method_holding::nets;
use rules::limits::{SECTION_PLACES, SETTLEMENT_CODES};

// Step 2: what is left when the codes are closed, and D (01, Expiry, 2.2; 01, Expiry, 3.1).
fn close_codes(columns: SectionColumns<'_>, gaps: &[i64], kept: &mut [u64]) -> i64
    requires held { Lent columns (length kept.old) × (length gaps.now ≡ 64) }
    requires nets_small { NetsSmall gaps.now × Small kept.old }
    ensures kept_after { (ss : List Section) → Of ss columns.entry → kept.new ≡ less kept.old (Codes.given_in_codes ss gaps.now kept.old) }
    ensures value { (ss : List Section) → Of ss columns.entry → result ≡ Across.d_overall ss gaps.now (Codes.given_in_codes ss gaps.now kept.old) }
    ensures small { Small kept.new }
{
    let held = kept.len();
    let mut given = [0; SECTION_PLACES];
    let mut net = [0; SETTLEMENT_CODES];
    in_codes::give(columns, gaps, false, kept, &mut given[..held]);
    nets::nets(columns.codes, columns.positions, &given[..held], &mut net);
    lists::less(kept, &given[..held]);
    across::left_open(gaps, &net)
}

// Step 3: what is left when d is closed (01, Expiry, 3.3).
fn close_across(columns: SectionColumns<'_>, d: i64, kept: &mut [u64])
    requires { Lent columns (length kept.old) × Small kept.old }
    ensures kept_after { (ss : List Section) → Of ss columns.entry → kept.new ≡ less kept.old (Across.given_across ss d kept.old) }
    ensures small { Small kept.new }
{
    let held = kept.len();
    let mut more = [0; SECTION_PLACES];
    across::give_across(columns, d, kept, &mut more[..held]);
    lists::less(kept, &more[..held]);
}

// What the method leaves each section, given what the failing sections have (01, Expiry, 1.2).
pub fn remaining(columns: SectionColumns<'_>, failed: &[u64], kept: &mut [u64])
    requires { Lent columns (length kept.old) × (length failed.now ≡ length kept.old) × Small failed.now }
    ensures kept_after { (ss : List Section) (ns : List Notice) → Of ss columns.entry → failed.now ≡ Failing.failing ss ns → kept.new ≡ Call.remaining ss ns }
    ensures small { Small kept.new }
{
    let mut gaps = [0; SETTLEMENT_CODES];
    nets::nets(columns.codes, columns.positions, failed, &mut gaps);
    lists::magnitudes(columns.positions, kept);
    lists::less(kept, failed);
    let d = close_codes(columns, &gaps, kept);
    close_across(columns, d, kept);
}

// What each section has terminated: the rest of its position beside what it keeps (01, Expiry, 1.2).
pub fn terminated(positions: &[i64], kept: &[u64], out: &mut [u64])
    requires { (length kept.now ≡ length positions.now) × (length out.old ≡ length positions.now) }
    ensures { out.new ≡ less (map nat_abs positions.now) kept.now }
{
    lists::magnitudes(positions, out);
    lists::less(out, kept);
}
