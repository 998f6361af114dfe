ghost use Rattle.arbiter.specs.Rounds.{fixed_slots_grants};
ghost use Rattle.arbiter.specs.Turns.{own_of, slot_passes};
ghost use Rattle.arbiter.specs.Laws.{fixed_slots_law};

use crate::by_turn::{ByTurn, TurnRule};
use crate::turn::Turn;

// Nobody but the slot's core is granted.
#[derive(Clone, Copy)]
pub struct SlotOnly;

// Fixed slots: slot s, from 0, belongs to core s mod N, and only that core is granted, if it is ready. Every grant is a
// slot. The wait is N.
pub type FixedSlots = ByTurn<SlotOnly>;

impl TurnRule for SlotOnly {
    ghost picks = { own_of };

    ghost passes = { slot_passes };

    ghost order = { λ n. fixed_slots_grants n 0 };

    ghost turn_law = { fixed_slots_law };

    fn pick(turn: Turn, ready: u8) -> Option<u8> {
        turn.own(ready)
    }

    fn pass(turn: Turn, _picked: Option<u8>) -> Turn {
        turn.passed()
    }
}
