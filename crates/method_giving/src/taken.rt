// Sections of an order give what they have, while their code's cap and the whole need last.
ghost use Rattle.std.specs.Prelude.{List, ◌≡◌, length};
ghost use Rattle.rules.specs.declared.book.Section.{Section};
ghost use Rattle.method_laws.specs.Columns.{settlements_of, AtMost, Below};
ghost use Rattle.method_laws.specs.Giving.{taken_from};

// What each section of an order gives; `given` holds what was given before (01, Expiry, 2.2; 01, Expiry, 3.3).
pub fn give(
    codes: &[u8],
    order: &[usize],
    lots: &[u64],
    caps: &mut [u64],
    need: u64,
    given: &mut [u64],
)
    requires codes_len { (length codes.now ≡ length lots.now) × (length given.old ≡ length lots.now) × (length caps.old ≡ 64) }
    requires below { Below (length lots.now) order.now × Below 64 codes.now }
    requires at_most { AtMost given.old lots.now }
    ensures given_after { (ss : List Section) → codes.now ≡ settlements_of ss → given.new ≡ taken_from ss order.now lots.now caps.old need given.old }
    ensures at_most_2 { AtMost given.new lots.now }
{
    let mut left = need;
    for place in order {
        let i = *place;
        let c = codes[i] as usize;
        let cap = caps[c];
        let own = lots[i];
        let within = cap.min(left);
        let amount = own.min(within);
        caps[c] = cap - amount;
        left -= amount;
        given[i] = amount;
    }
}
