// What the inside passes and the outside pass have to deliver: lots of sections, and what is drawn of the notices for them.
ghost use Rattle.std.specs.Prelude.{ℕ, List, ◌≡◌, ◌≤◌, length, replicate};
ghost use Rattle.rules.specs.Words.{entry, less};
ghost use Rattle.rules.specs.declared.book.{Section.Section, Notice.Notice};
ghost use Rattle.rules.specs.Expiry.Drawing.{drawn};
ghost use Rattle.method_steps.specs.Held.{Lent};
ghost use Rattle.method_register.specs.Passes.{PartedBy, Noticed, Drawing};

use method_giving::lists;
use method_holding::drawing;
use method_steps::columns::SectionColumns;
use method_steps::outside;

// What of the lots kept stays inside, and what goes outside; `far` is noughts at first (01, Expiry, 4.1; 01, Expiry, 4.2).
pub fn split(columns: SectionColumns<'_>, kept: &[u64], near: &mut [u64], far: &mut [u64])
    requires held { Lent columns (length kept.now) × ((i : ℕ) → entry kept.now i ≤ 1_000_000) }
    requires near_len { (length near.old ≡ length kept.now) × (far.old ≡ replicate (length kept.now) 0) }
    ensures { PartedBy columns.entry kept.now near.new far.new }
{
    outside::outside(columns, kept, far);
    near.copy_from_slice(kept);
    lists::less(near, far);
}

// What is drawn of the notices inside, and beyond that outside (01, Expiry, 5.1). Two lists and no NoticeColumns: elevators have no say in it, and `method_account` has none here.
pub fn draw(
    positions: &[i64],
    sellers: &[u8],
    lots: &[u64],
    kept: &[u64],
    near: &[u64],
    inside: &mut [u64],
    beyond: &mut [u64],
)
    requires positions_len_bound { (length positions.now ≤ 128) × (length kept.now ≡ length positions.now) × (length near.now ≡ length positions.now) }
    requires noticed { Noticed sellers.now lots.now (length positions.now) × (length inside.old ≡ length sellers.now) × (length beyond.old ≡ length sellers.now) }
    ensures inside_after { (ss : List Section) (ns : List Notice) → Drawing ss ns positions.now sellers.now lots.now → inside.new ≡ drawn ss ns near.now }
    ensures beyond_after { (ss : List Section) (ns : List Notice) → Drawing ss ns positions.now sellers.now lots.now → beyond.new ≡ less (drawn ss ns kept.now) inside.new }
    ensures by_index { ((k : ℕ) → entry inside.new k ≤ 1_000_000) × ((k : ℕ) → entry beyond.new k ≤ 1_000_000) }
{
    drawing::drawn(positions, sellers, lots, near, inside);
    drawing::drawn(positions, sellers, lots, kept, beyond);
    lists::less(beyond, inside);
}
