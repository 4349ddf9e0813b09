// What a pass takes: lots of its buyers, and what is drawn for it of the notices.
ghost use Rattle.std.specs.Prelude.{ℕ, ◌≡◌, ◌<◌, length};
ghost use Rattle.rules.specs.Words.{entry};
ghost use Rattle.method_register.specs.Passes.{long_lots, lots_in_code, drawn_in_code};

use method_giving::chosen::kept_if;

// Of the lots those of the long sections (01, Expiry, 6.1).
pub fn keep_long(positions: &[i64], lots: &mut [u64])
    requires { length positions.now ≡ length lots.old }
    ensures { lots.new ≡ long_lots positions.now lots.old }
{
    for (i, position) in positions.iter().enumerate() {
        lots[i] = kept_if(0 < *position, lots[i]);
    }
}

// The lots of a settlement code's sections (01, Expiry, 6.1).
pub fn lots_in_code(codes: &[u8], lots: &[u64], c: u8, out: &mut [u64])
    requires { (length codes.now ≡ length lots.now) × (length out.old ≡ length lots.now) }
    ensures { out.new ≡ lots_in_code codes.now lots.now c }
{
    for (i, own) in lots.iter().enumerate() {
        out[i] = kept_if(codes[i] == c, *own);
    }
}

// What is drawn of the notices of a settlement code's sections (01, Expiry, 6.1).
pub fn drawn_in_code(codes: &[u8], sellers: &[u8], drawn: &[u64], c: u8, out: &mut [u64])
    requires sellers_len { (length sellers.now ≡ length drawn.now) × (length out.old ≡ length drawn.now) }
    requires by_index { (k : ℕ) → k < length sellers.now → entry sellers.now k < length codes.now }
    ensures { out.new ≡ drawn_in_code codes.now sellers.now drawn.now c }
{
    for (k, own) in drawn.iter().enumerate() {
        let seller = sellers[k] as usize;
        out[k] = kept_if(codes[seller] == c, *own);
    }
}
