// What is drawn of the notices at an elevator.
ghost use Rattle.std.specs.Prelude.{◌≡◌, ◌<◌, length, replicate};
ghost use Rattle.rules.specs.Words.{entry};
ghost use Rattle.rules.specs.Expiry.Passes;
ghost use Rattle.method_passes.specs.Formed.{Drawn};

// What is drawn of notice k if it stands at the elevator, else 0 (01, Expiry, 6.3).
pub fn offer(stands: &[u8], drawn: &[u64], elevator: u8, k: usize) -> u64
    requires { (length drawn.now ≡ length stands.now) × (k < length stands.now) }
    ensures { result ≡ entry (Passes.offers stands.now drawn.now elevator) k }
{
    if stands[k] == elevator {
        return drawn[k];
    }
    0
}

// The sum at each elevator, in one walk over the notices; `out` is noughts at first (01, Expiry, 6.2).
pub fn elevator_lots(stands: &[u8], drawn: &[u64], out: &mut [u64])
    requires { Drawn stands.now drawn.now × (out.old ≡ replicate 32 0) }
    ensures { out.new ≡ Passes.elevator_lots stands.now drawn.now }
{
    for (k, stand) in stands.iter().enumerate() {
        out[*stand as usize] += drawn[k];
    }
}
