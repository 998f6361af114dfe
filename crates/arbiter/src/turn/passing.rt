// How turns pass, and who is ready first.
ghost use Rattle.std.specs.Prelude.{◌≡◌};
ghost use Rattle.arbiter.specs.Turns.{first_of, own_of, slot_passed, turn_after};

use super::Turn;
use model::Cores;

impl Turn {
    // Core 0 has the first turn.
    pub(crate) fn new(cores: Cores) -> Turn
        ensures { (result.cores ≡ cores) × (result.core ≡ 0) }
    {
        Turn { cores, core: 0 }
    }

    pub(crate) fn cores(&self) -> u8
        ensures { result ≡ self.now.cores.count }
    {
        self.cores.count
    }

    // The core whose turn it is, if it is ready.
    pub(crate) fn own(&self, ready: u8) -> Option<u8>
        ensures { result ≡ own_of self.now ready }
    {
        // Not by `has_bit`, which asks first whether there is such a bit: a grant takes longer by it.
        let is_ready = (ready >> self.core) % 2 == 1;
        is_ready.then_some(self.core)
    }

    // The first ready core, beginning with the one whose turn it is.
    pub(crate) fn first(&self, ready: u8) -> Option<u8>
        ensures { result ≡ first_of self.now ready }
    {
        // From turn to turn: a `find` over the cores in this order takes up to twice the time.
        let mut turn = *self;
        for _ in 0..self.cores.count {
            if let Some(core) = turn.own(ready) {
                return Some(core);
            }
            turn = turn.passed();
        }
        None
    }

    // The turn of the core after `core`, core 0 following the last.
    pub(crate) fn after(self, core: u8) -> Turn
        ensures { result ≡ turn_after self core }
    {
        let last = self.cores.count - 1;
        Turn {
            cores: self.cores,
            core: if core < last { core + 1 } else { 0 },
        }
    }

    // The next core's turn.
    pub(crate) fn passed(self) -> Turn
        ensures { result ≡ slot_passed self }
    {
        self.after(self.core)
    }
}
