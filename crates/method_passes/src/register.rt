// The lines of an expiry, from the first one formed: columns, as the lists that they are written to (01, Expiry call, 1); of fixed length, as there is no heap.
ghost use Rattle.std.specs.Prelude.{◌≡◌, ◌<◌, [], ◌∷◌, ◌++◌};
ghost use Rattle.method_passes.specs.Formed.{lines_in};

use rules::limits::REGISTER_PLACES;

#[derive(Clone, Copy)]
pub struct Register {
    pub buyers: [u8; REGISTER_PLACES],
    pub elevators: [u8; REGISTER_PLACES],
    pub sellers: [u8; REGISTER_PLACES],
    pub lots: [u32; REGISTER_PLACES],
    // How many there are.
    pub count: usize,
}

pub fn none() -> Register
    ensures { lines_in result ≡ [] }
{
    Register {
        buyers: [0; REGISTER_PLACES],
        elevators: [0; REGISTER_PLACES],
        sellers: [0; REGISTER_PLACES],
        lots: [0; REGISTER_PLACES],
        count: 0,
    }
}

impl Register {
    // One line more.
    pub fn push(&mut self, buyer: u8, elevator: u8, seller: u8, lots: u32)
        requires { self.old.count < 382 }
        ensures { lines_in self.new ≡ lines_in self.old ++ (record { buyer = buyer; elevator = elevator; seller = seller; lots = lots } ∷ []) }
    {
        let at = self.count;
        self.buyers[at] = buyer;
        self.elevators[at] = elevator;
        self.sellers[at] = seller;
        self.lots[at] = lots;
        self.count = at + 1;
    }
}
