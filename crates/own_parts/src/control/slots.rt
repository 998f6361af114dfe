ghost use Rattle.std.specs.Prelude.{◌≡◌};
ghost use Rattle.arbiter.specs.Rounds.{after};
ghost use Rattle.own_parts.specs.Control.{owner, owner_ready, slot_passed, slots, slots_to};
ghost use Rattle.own_parts.specs.Controlled.{law};

use super::ControlFirst;
use arbiter::Arbiter;
use model::Cores;

impl ControlFirst {
    // It starts with slot 0.
    pub fn new(cores: Cores) -> ControlFirst
        ensures { (result.cores ≡ cores) × (result.slot ≡ 0) }
    {
        ControlFirst { cores, slot: 0 }
    }

    // The core that the slot belongs to.
    fn owner(&self) -> u8
        ensures { result ≡ owner self.now.slot }
    {
        if self.slot % 2 == 0 { 0 } else { self.slot / 2 }
    }

    // The slot after this one, slot 0 following the last of the round.
    fn next(&self) -> u8
        ensures { result ≡ after (slots self.now) self.now.slot }
    {
        let last = 2 * self.cores.count - 1;
        if self.slot < last { self.slot + 1 } else { 0 }
    }
}

impl Arbiter for ControlFirst {
    ghost core_count = { λ a. a.cores.count };

    ghost wait = { slots };

    ghost distance = { slots_to };

    ghost picks = { owner_ready };

    ghost moves = { λ a _. slot_passed a };

    ghost bounded_waiting = { law };

    fn cores(&self) -> u8 {
        self.cores.count
    }

    fn grant(&mut self, ready: u8) -> Option<u8> {
        let owner = self.owner();
        self.slot = self.next();
        let is_ready = (ready >> owner) % 2 == 1;
        is_ready.then_some(owner)
    }
}
