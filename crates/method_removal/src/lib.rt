// Lines that sell to the same person are taken out of the register, and their lots lapse (document 02, a).
#![tactic(auto)]

ghost use Rattle.std.specs.Prelude.{◌≡◌, ◌<◌, ◌+◌, eqb, cond, length, replicate};
ghost use Rattle.rules.specs.Words.{entry};
ghost use Rattle.method_passes.specs.Formed.{lines_in};
ghost use Rattle.method_removal.specs.Removed.{kept_by, removed_by, lapsed_by, Known};

use method_columns::by_section;
use method_passes::register::Register;
use rules::limits::REGISTER_PLACES;

// Whether two sections have one participant (02, a, 1).
fn same_person(participants: &[u32], buyer: u8, seller: u8) -> bool
    requires { (buyer < length participants.now) × (seller < length participants.now) }
    ensures { result ≡ eqb (entry participants.now buyer) (entry participants.now seller) }
{
    participants[buyer as usize] == participants[seller as usize]
}

// The place of the next line: the same one where the line there is taken out (02, a, 3). It answers a place and no Option, so that the walk has no branch.
fn next_place(at: usize, same: bool) -> usize
    requires { at < 382 }
    ensures { result ≡ cond same at (at + 1) }
{
    let next = at + 1;
    if same {
        return at;
    }
    next
}

// The lines that are kept, each moved up to the first place that is free (02, a, 3).
pub fn kept_lines(participants: &[u32], g: Register) -> Register
    requires { Known participants.now g }
    ensures { lines_in result ≡ kept_by participants.now (lines_in g) }
{
    let mut kept = g;
    kept.count = 0;
    for k in 0..g.count {
        let buyer = g.buyers[k];
        let elevator = g.elevators[k];
        let seller = g.sellers[k];
        let lots = g.lots[k];
        let same = same_person(participants, buyer, seller);
        let at = kept.count;
        kept.buyers[at] = buyer;
        kept.elevators[at] = elevator;
        kept.sellers[at] = seller;
        kept.lots[at] = lots;
        kept.count = next_place(at, same);
    }
    kept
}

// A line's lots where it is taken out, and 0 where it is kept (02, a, 4).
fn removed(same: bool, lots: u64) -> u64
    ensures { result ≡ cond same lots 0 }
{
    let none = 0;
    if same {
        return lots;
    }
    none
}

// The lots of the lines taken out, and 0 for the lines kept (02, a, 4).
fn removed_lots(participants: &[u32], g: Register, gone: &mut [u64])
    requires { Known participants.now g × (length gone.old ≡ g.count) }
    ensures { gone.new ≡ removed_by participants.now g }
{
    for k in 0..g.count {
        let buyer = g.buyers[k];
        let seller = g.sellers[k];
        let lots = g.lots[k] as u64;
        let same = same_person(participants, buyer, seller);
        gone[k] = removed(same, lots);
    }
}

// What lapses of each section: its lots in the lines taken out, on either side; `sums` is noughts at first (02, a, 4).
pub fn lapsed(participants: &[u32], g: Register, sums: &mut [u64])
    requires { Known participants.now g × (sums.old ≡ replicate (length participants.now) 0) }
    ensures { sums.new ≡ lapsed_by participants.now (lines_in g) }
{
    let count = g.count;
    let buyers = g.buyers;
    let sellers = g.sellers;
    let mut gone = [0; REGISTER_PLACES];
    removed_lots(participants, g, &mut gone[..count]);
    let taken = &gone[..count];
    let buying = &buyers[..count];
    let selling = &sellers[..count];
    by_section::add(buying, taken, sums);
    by_section::add(selling, taken, sums);
}
