ghost use Rattle.arbiter.specs.Rounds.{work_conserving_grants};
ghost use Rattle.arbiter.specs.Turns.{first_of, slot_passes};
ghost use Rattle.arbiter.specs.Laws.{work_conserving_law};

use crate::by_turn::{ByTurn, TurnRule};
use crate::turn::Turn;

// The slot's core comes first, and the next ready core where that is not ready.
#[derive(Clone, Copy)]
pub struct FirstFromSlot;

// Work-conserving slots: slot s, from 0, belongs to core s mod N, and if that core is not ready, the next ready core in
// rising order is granted, core 0 following N − 1. Every grant is a slot. The wait is N.
pub type WorkConserving = ByTurn<FirstFromSlot>;

impl TurnRule for FirstFromSlot {
    ghost picks = { first_of };

    ghost passes = { slot_passes };

    ghost order = { λ n. work_conserving_grants n 0 };

    ghost turn_law = { work_conserving_law };

    fn pick(turn: Turn, ready: u8) -> Option<u8> {
        turn.first(ready)
    }

    fn pass(turn: Turn, _picked: Option<u8>) -> Turn {
        turn.passed()
    }
}
