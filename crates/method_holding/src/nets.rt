// The net of each settlement code's lots.
ghost use Rattle.std.specs.Prelude.{List, ◌≡◌, ◌≤◌, length, replicate, pos};
ghost use Rattle.rules.specs.Words.{listed};
ghost use Rattle.rules.specs.declared.book.Section.{Section};
ghost use Rattle.rules.specs.Expiry;
ghost use Rattle.method_laws.specs.Columns.{settlements_of, positions_of, Below, NetsSmall, Small};

// Lots with the sign of a position.
fn on_side_of(position: i64, own: u64) -> i64
    requires { own ≤ 1_000_000 }
    ensures { result ≡ Expiry.on_side_of position own }
{
    let lots = own as i64;
    if position < 0 {
        return -lots;
    }
    lots
}

// The net of each code, in one walk over the sections; `out` is noughts at first (01, Expiry, 2.1).
pub fn nets(codes: &[u8], positions: &[i64], lots: &[u64], out: &mut [i64])
    requires codes_len { (length codes.now ≡ length lots.now) × (length positions.now ≡ length lots.now) × (length lots.now ≤ 128) × (out.old ≡ replicate 64 (pos 0)) }
    requires below { Below 64 codes.now × Small lots.now }
    ensures out_after { (ss : List Section) → codes.now ≡ settlements_of ss → positions.now ≡ positions_of ss → out.new ≡ listed 64 (Expiry.net_of_code ss lots.now) }
    ensures out_len { (length out.new ≡ 64) × NetsSmall out.new }
{
    for i in 0..lots.len() {
        let c = codes[i] as usize;
        let position = positions[i];
        let net = out[c];
        out[c] = net + on_side_of(position, lots[i]);
    }
}
