ghost use Rattle.std.specs.Prelude.{◌≡◌};
ghost use Rattle.arbiter.specs.Shipped.{FixedSlotsRule, RoundRobinRule, WorkConservingRule};

use crate::fixed_slots::FixedSlots;
use crate::round_robin::RoundRobin;
use crate::work_conserving::WorkConserving;
use model::Cores;

// The three shipped arbiters for so many cores, each by its own rule from its first grant on.
pub fn shipped_arbiters(cores: Cores) -> (WorkConserving, FixedSlots, RoundRobin)
    ensures cores { (result.0.turn.cores ≡ cores) × (result.1.turn.cores ≡ cores) × (result.2.turn.cores ≡ cores) }
    ensures first { (result.0.turn.core ≡ 0) × (result.1.turn.core ≡ 0) × (result.2.turn.core ≡ 0) }
    ensures slots { WorkConservingRule result.0 }
    ensures fixed { FixedSlotsRule result.1 }
    ensures rounds { RoundRobinRule result.2 }
{
    let slots = WorkConserving::new(cores);
    let fixed = FixedSlots::new(cores);
    let rounds = RoundRobin::new(cores);
    (slots, fixed, rounds)
}
