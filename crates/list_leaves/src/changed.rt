// One entry of a list becomes less, or more.
ghost use Rattle.std.specs.Prelude.{◌≡◌, ◌-◌};
ghost use Rattle.rules.specs.Words.{entry};
ghost use Rattle.list_leaves.specs.Leaves;

// What is left of entry i when n is taken, 0 where n is more; the answer is what is left there, 0 past the end (01, Expiry, 6.2; 01, Expiry, 6.3).
pub fn lower(lots: &mut [u64], i: usize, n: u64) -> u64
    ensures lots_after { lots.new ≡ Leaves.lowered lots.old i n }
    ensures value { result ≡ entry lots.old i - n }
{
    if lots.len() <= i {
        return 0;
    }
    let left = lots[i].saturating_sub(n);
    lots[i] = left;
    left
}

// n more in entry i, where it fits 64 bits.
pub fn raise(lots: &mut [u64], i: usize, n: u64)
    ensures { lots.new ≡ Leaves.raised lots.old i n }
{
    if i < lots.len() {
        if let Some(more) = lots[i].checked_add(n) {
            lots[i] = more;
        }
    }
}

// z more in entry i, where it fits 64 bits.
pub fn add(sums: &mut [i64], i: usize, z: i64)
    ensures { sums.new ≡ Leaves.added sums.old i z }
{
    if i < sums.len() {
        if let Some(more) = sums[i].checked_add(z) {
            sums[i] = more;
        }
    }
}
