// Entries that are as asked: how many, and where the first stands.
ghost use Rattle.std.specs.Prelude.{◌≡◌};
ghost use Rattle.list_leaves.specs.Leaves;

// How many lots are n; of a tie there is more than one (01, Expiry, 6.4).
pub fn alike(lots: &[u64], n: u64) -> usize
    ensures { result ≡ Leaves.alike n lots.now }
{
    lots.iter().filter(|own| **own == n).count()
}

// The first place where two lists have x and y, the length of the shorter where there is none: the pair of a buyer at an elevator, the notice of a seller
// at an elevator (01, Expiry, 6.2; 01, Expiry, 6.3). It answers a length and no `None`, since an entry past the end reads as 0 for its callers.
pub fn place_of(firsts: &[u8], seconds: &[u8], x: u8, y: u8) -> usize
    ensures { result ≡ Leaves.place_of x y firsts.now seconds.now }
{
    firsts
        .iter()
        .zip(seconds)
        .take_while(|(first, second)| !((**first == x) & (**second == y)))
        .count()
}
