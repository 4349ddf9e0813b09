// Entries written over the first ones of a lent list; later entries remain.
ghost use Rattle.std.specs.Prelude.{◌≡◌, ◌≤◌, length};
ghost use Rattle.rules.specs.Words.{over};
ghost use Rattle.method_laws.specs.Columns.{Small};

// A column of lines (01, Expiry call, 2).
pub fn column<T: Copy>(from: &[T], to: &mut [T])
    requires { length from.now ≤ length to.old }
    ensures { to.new ≡ over from.now to.old }
{
    to[..from.len()].copy_from_slice(from);
}

// Lots of sections, which are small (01, Expiry call, 2).
pub fn small_lots(from: &[u64], to: &mut [u32])
    requires { (length from.now ≤ length to.old) × Small from.now }
    ensures { to.new ≡ over from.now to.old }
{
    for (i, lots) in from.iter().enumerate() {
        to[i] = *lots as u32;
    }
}
