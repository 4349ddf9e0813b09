// Lots added up by section.
ghost use Rattle.std.specs.Prelude.{ℕ, ◌≡◌, ◌≤◌, ◌+◌, length};
ghost use Rattle.rules.specs.Words.{listed, entry};
ghost use Rattle.method_laws.specs.Columns.{lots_at, Below, Small};

// What each number has is added to the entry of its section (01, Expiry, 1.1; 02, a, 4).
pub fn add(numbers: &[u8], lots: &[u64], sums: &mut [u64])
    requires numbers_len_bound { (length numbers.now ≤ 382) × (length lots.now ≡ length numbers.now) × Below (length sums.old) numbers.now }
    requires small { Small lots.now × ((i : ℕ) → entry sums.old i ≤ 382_000_000) }
    ensures { sums.new ≡ listed (length sums.old) (λ (i : ℕ). entry sums.old i + lots_at numbers.now lots.now i) }
{
    for k in 0..numbers.len() {
        let i = numbers[k] as usize;
        let own = lots[k];
        let before = sums[i];
        sums[i] = before + own;
    }
}
