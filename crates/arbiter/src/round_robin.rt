ghost use Rattle.std.specs.Prelude.{None};
ghost use Rattle.arbiter.specs.Rounds.{round_robin_grants};
ghost use Rattle.arbiter.specs.Turns.{first_of, grant_passed};
ghost use Rattle.arbiter.specs.Laws.{round_robin_law};

use crate::by_turn::{ByTurn, TurnRule};
use crate::turn::Turn;

// The first ready core after the last granted one comes first.
#[derive(Clone, Copy)]
pub struct FirstAfterGranted;

// Round robin: the first ready core after the last granted one, starting with core 0. Where none is ready the last stays.
// The wait is N.
pub type RoundRobin = ByTurn<FirstAfterGranted>;

impl TurnRule for FirstAfterGranted {
    ghost picks = { first_of };

    ghost passes = { grant_passed };

    ghost order = { λ n. round_robin_grants n None };

    ghost turn_law = { round_robin_law };

    fn pick(turn: Turn, ready: u8) -> Option<u8> {
        turn.first(ready)
    }

    fn pass(turn: Turn, picked: Option<u8>) -> Turn {
        match picked {
            Some(core) => turn.after(core),
            None => turn,
        }
    }
}
