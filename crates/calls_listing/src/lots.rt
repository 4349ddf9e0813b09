// The rows of the sections' lots, written into a buffer from a place on.
ghost use Rattle.std.specs.Prelude.{◌+◌, ◌≡◌, ◌≤◌, length};
ghost use Rattle.listing.specs.Laid.{Laid};
ghost use Rattle.shared_lists.specs.Lists.{lists_read};
ghost use Rattle.calls_listing.specs.Texts.{lots_rows};

use listing::rows;
use listing::text::LINE_END;
use shared_lists::Lists;

// The rows of the sections held, by number (01, Program, 1; 02, a, 4).
pub fn sections(codes: &[u8], lists: Lists<'_>, held: usize, out: &mut [u8], at: usize) -> usize
    requires codes_len { length codes.now ≡ 896 }
    requires held_bound { (held ≤ 128) × (held ≤ length lists.delivered.now) × (held ≤ length lists.terminated.now) × (held ≤ length lists.lapsed.now) }
    requires held_in_bounds { at + length (lots_rows codes.now (lists_read lists).lists held) ≤ length out.old }
    ensures { Laid out.old at (lots_rows codes.now (lists_read lists.entry).lists held) out.new result }
{
    let mut next = at;
    for i in 0..held {
        let delivered = lists.delivered[i];
        let terminated = lists.terminated[i];
        let lapsed = lists.lapsed[i];
        next = rows::lots(codes, i, delivered, terminated, lapsed, LINE_END, out, next);
    }
    next
}
