// The pairs of a pass, from the first one formed: columns of fixed length, as there is no heap.
ghost use Rattle.std.specs.Prelude.{◌≡◌, ◌≤◌, ◌<◌, [], ◌∷◌, ◌++◌};
ghost use Rattle.method_passes.specs.Formed.{pairs_in, pair_left};

use rules::limits::PAIR_PLACES;

#[derive(Clone, Copy)]
pub struct Pairs {
    pub buyers: [u8; PAIR_PLACES],
    pub elevators: [u8; PAIR_PLACES],
    pub lots: [u64; PAIR_PLACES],
    // How many there are.
    pub count: usize,
}

pub fn none() -> Pairs
    ensures { pairs_in result ≡ [] }
{
    Pairs {
        buyers: [0; PAIR_PLACES],
        elevators: [0; PAIR_PLACES],
        lots: [0; PAIR_PLACES],
        count: 0,
    }
}

impl Pairs {
    // One pair more.
    pub fn push(&mut self, buyer: u8, elevator: u8, lots: u64)
        requires { self.old.count < 160 }
        ensures { pairs_in self.new ≡ pairs_in self.old ++ (record { buyer = buyer; elevator = elevator; lots = lots } ∷ []) }
    {
        let at = self.count;
        self.buyers[at] = buyer;
        self.elevators[at] = elevator;
        self.lots[at] = lots;
        self.count = at + 1;
    }

    // Pair p with so many lots left.
    pub fn leave(&mut self, p: usize, left: u64)
        requires { (p < self.old.count) × (self.old.count ≤ 160) }
        ensures { pairs_in self.new ≡ pair_left (pairs_in self.old) p left }
    {
        self.lots[p] = left;
    }
}
