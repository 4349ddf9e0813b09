// Step 5: what is drawn of the notices.
ghost use Rattle.std.specs.Prelude.{List, ◌≡◌, ◌≤◌, ◌-◌, min, cond, length};
ghost use Rattle.rules.specs.declared.book.{Section.Section, Notice.Notice};
ghost use Rattle.rules.specs.Expiry;
ghost use Rattle.rules.specs.Expiry.Drawing;
ghost use Rattle.method_laws.specs.Columns.{positions_of, notice_lots_in, Below, Small};
ghost use Rattle.rules.specs.Expiry.Passes.{sellers_in};

use rules::limits::SECTION_PLACES;

// What a notice of a short section has of the section's first lots, after those filed before it.
fn share(position: i64, own: u64, first: u64, before: u64) -> u64
    ensures { result ≡ cond (Expiry.is_short position) (min own (first - before)) 0 }
{
    if 0 <= position {
        return 0;
    }
    own.min(first.saturating_sub(before))
}

// What each notice has of its section's first lots, in one walk over the notices (01, Expiry, 5.1; 01, Expiry, 6.5).
pub fn drawn(positions: &[i64], sellers: &[u8], lots: &[u64], first: &[u64], out: &mut [u64])
    requires positions_len_bound { (length positions.now ≤ 128) × (length first.now ≡ length positions.now) × (length sellers.now ≤ 256) × (length lots.now ≡ length sellers.now) × (length out.old ≡ length sellers.now) }
    requires below { Below (length positions.now) sellers.now × Small lots.now }
    ensures out_after { (ss : List Section) (ns : List Notice) → positions.now ≡ positions_of ss → sellers.now ≡ sellers_in ns → lots.now ≡ notice_lots_in ns → out.new ≡ Drawing.drawn ss ns first.now }
    ensures small { Small out.new }
{
    let mut before = [0; SECTION_PLACES];
    for (k, seller) in sellers.iter().enumerate() {
        let i = *seller as usize;
        let own = lots[k];
        let used = before[i];
        out[k] = share(positions[i], own, first[i], used);
        before[i] = used + own;
    }
}
