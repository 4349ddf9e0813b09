// The passes of an expiry one after the other.
ghost use Rattle.std.specs.Prelude.{◌≡◌, ◌+◌, ◌≤◌, ◌<◌, ◌++◌, List, [], length};
ghost use Rattle.rules.specs.Words.{flat_map};
ghost use Rattle.rules.specs.declared.book.{Section.Section, Notice.Notice};
ghost use Rattle.rules.specs.Expiry.Call;
ghost use Rattle.method_passes.specs.Formed.{lines_in};
ghost use Rattle.method_register.specs.Passes.{in_code, in_codes, pairs_by, lines_by, ReadBy, DeliversBy, ExpiringBy, PartedBy};

use crate::columns::NoticeColumns;
use crate::{chosen, lots};
use method_giving::lists;
use method_passes::pass::Formed;
use method_passes::{pass, register};
use method_steps::columns::SectionColumns;
use rules::limits::{NOTICE_PLACES, SECTION_PLACES, SETTLEMENT_CODES};

// The inside pass of a settlement code, of the inside lots of the long sections and of what is drawn inside; with none of the code to buy it forms nothing and is not run
// (01, Expiry, 6.1).
fn inside_pass(
    columns: SectionColumns<'_>,
    buyers: &[u64],
    drawn: NoticeColumns<'_>,
    c: u8,
    before: Formed,
) -> Formed
    requires read { ReadBy columns buyers.now drawn × (before.pairs ≤ 10_240) }
    requires c_bound { before.register.count + length (lines_by columns.keys.now drawn.sellers.now drawn.stands.now (in_code columns.codes.now drawn.sellers.now buyers.now drawn.lots.now c)) ≤ 382 }
    ensures register_value { lines_in result.register ≡ lines_in before.register ++ lines_by columns.entry.keys.now drawn.entry.sellers.now drawn.entry.stands.now (in_code columns.entry.codes.now drawn.entry.sellers.now buyers.now drawn.entry.lots.now c) }
    ensures pairs_value { result.pairs ≡ before.pairs + length (pairs_by columns.entry.keys.now drawn.entry.stands.now (in_code columns.entry.codes.now drawn.entry.sellers.now buyers.now drawn.entry.lots.now c)) }
{
    let held = buyers.len();
    let filed = drawn.lots.len();
    let mut bought = [0; SECTION_PLACES];
    chosen::lots_in_code(columns.codes, buyers, c, &mut bought[..held]);
    let wanted = lists::sum(&bought[..held]);
    if wanted == 0 {
        return before;
    }
    let mut sold = [0; NOTICE_PLACES];
    chosen::drawn_in_code(
        columns.codes,
        drawn.sellers,
        drawn.lots,
        c,
        &mut sold[..filed],
    );
    pass::run(
        columns.keys,
        &mut bought[..held],
        drawn.sellers,
        drawn.stands,
        &mut sold[..filed],
        before,
    )
}

// Nothing formed yet.
fn nothing() -> Formed
    ensures { (lines_in result.register ≡ []) × (result.pairs ≡ 0) }
{
    let empty = register::none();
    Formed {
        register: empty,
        pairs: 0,
    }
}

// All inside passes, by settlement code ascending; nothing is formed before (01, Expiry, 6.1).
fn inside_passes(
    columns: SectionColumns<'_>,
    buyers: &[u64],
    drawn: NoticeColumns<'_>,
    before: Formed,
) -> Formed
    requires read { ReadBy columns buyers.now drawn × (lines_in before.register ≡ []) × (before.pairs ≡ 0) }
    requires drawn_len_bound { length (flat_map (lines_by columns.keys.now drawn.sellers.now drawn.stands.now) (in_codes columns.codes.now drawn.sellers.now buyers.now drawn.lots.now)) ≤ 382 }
    ensures register_value { lines_in result.register ≡ flat_map (lines_by columns.entry.keys.now drawn.entry.sellers.now drawn.entry.stands.now) (in_codes columns.entry.codes.now drawn.entry.sellers.now buyers.now drawn.entry.lots.now) }
    ensures pairs_value { result.pairs ≡ length (flat_map (pairs_by columns.entry.keys.now drawn.entry.stands.now) (in_codes columns.entry.codes.now drawn.entry.sellers.now buyers.now drawn.entry.lots.now)) }
    ensures pairs_bound { result.pairs ≤ 10_240 }
{
    let mut formed = before;
    for c in 0..SETTLEMENT_CODES as u8 {
        formed = inside_pass(columns, buyers, drawn, c, formed);
    }
    formed
}

// The passes of the lots that stay inside, `near`, and of those that go outside, `far` (01, Expiry, 6.1).
fn run_passes(
    columns: SectionColumns<'_>,
    notices: NoticeColumns<'_>,
    kept: &[u64],
    near: &mut [u64],
    far: &mut [u64],
) -> Formed
    requires expiring { ExpiringBy columns notices kept.now }
    requires parted { PartedBy columns kept.now near.old far.old }
    ensures register_value { (ss : List Section) (ns : List Notice) → DeliversBy ss ns columns.entry notices.entry kept.now → lines_in result.register ≡ Call.lines ss ns }
    ensures pairs_value { (ss : List Section) (ns : List Notice) → DeliversBy ss ns columns.entry notices.entry kept.now → result.pairs ≡ length (Call.pairs ss ns) }
{
    let keys = columns.keys;
    let sellers = notices.sellers;
    let stands = notices.stands;
    let filed = sellers.len();
    let mut inside = [0; NOTICE_PLACES];
    let mut beyond = [0; NOTICE_PLACES];
    lots::draw(
        columns.positions,
        sellers,
        notices.lots,
        kept,
        near,
        &mut inside[..filed],
        &mut beyond[..filed],
    );
    chosen::keep_long(columns.positions, near);
    chosen::keep_long(columns.positions, far);
    let drawn = NoticeColumns {
        lots: &inside[..filed],
        ..notices
    };
    let start = nothing();
    let formed = inside_passes(columns, near, drawn, start);
    pass::run(keys, far, sellers, stands, &mut beyond[..filed], formed)
}

// The lines formed of what is left, and how many pairs were formed (01, Expiry, 6.1; 01, Expiry, 7; 01, Forms, 2).
pub fn form(columns: SectionColumns<'_>, notices: NoticeColumns<'_>, kept: &[u64]) -> Formed
    requires { ExpiringBy columns notices kept.now }
    ensures register_value { (ss : List Section) (ns : List Notice) → DeliversBy ss ns columns.entry notices.entry kept.now → lines_in result.register ≡ Call.lines ss ns }
    ensures pairs_value { (ss : List Section) (ns : List Notice) → DeliversBy ss ns columns.entry notices.entry kept.now → result.pairs ≡ length (Call.pairs ss ns) }
{
    let held = kept.len();
    let mut near = [0; SECTION_PLACES];
    let mut far = [0; SECTION_PLACES];
    lots::split(columns, kept, &mut near[..held], &mut far[..held]);
    run_passes(columns, notices, kept, &mut near[..held], &mut far[..held])
}
