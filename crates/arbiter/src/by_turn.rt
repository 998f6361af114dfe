// Arbiters that keep whose turn it is, and have a rule by which they pick a core and pass the turn.
ghost use Rattle.std.specs.Prelude.{◌≡◌, ℕ, List, Option};
ghost use Rattle.arbiter.specs.Granting.{InOrder};
ghost use Rattle.arbiter.specs.Laws.{bounded_by};
ghost use Rattle.arbiter.specs.Shipped.{turn_moves, turn_picks};
ghost use Rattle.arbiter.specs.Turns.{TurnLaw, turns_to};
ghost use Rattle.arbiter.specs.declared.turn.Turn.{Turn};

use crate::Arbiter;
use crate::turn::Turn;
use model::Cores;
use std::marker::PhantomData;

// Which core is picked at a turn, and whose turn is next.
pub trait TurnRule: Sized {
    // The picked core, if any, when these cores are ready.
    ghost picks: { Turn → ℕ → Option ℕ };

    // The turn once that was picked.
    ghost passes: { Turn → Option ℕ → Turn };

    // What is picked from core 0's turn on, by the number of cores and the cores that are ready each time.
    ghost order: { ℕ → List ℕ → List (Option ℕ) };

    fn pick(turn: Turn, ready: u8) -> Option<u8>
        ensures { result ≡ picks turn ready };

    fn pass(turn: Turn, picked: Option<u8>) -> Turn
        ensures { result ≡ passes turn picked };

    // What every rule keeps; the granting law follows.
    ghost turn_law: { TurnLaw picks passes order };
}

// The arbiter by such a rule: a grant answers whom the rule picks, and passes the turn as it says. The wait is N.
#[derive(Clone, Copy)]
pub struct ByTurn<R> {
    turn: Turn,
    rule: PhantomData<R>,
}

impl<R: TurnRule> Arbiter for ByTurn<R> {
    ghost core_count = { λ a. a.turn.cores.count };

    ghost wait = { λ a. a.turn.cores.count };

    ghost distance = { λ a core. turns_to a.turn core };

    ghost picks = { turn_picks R.picks };

    ghost moves = { turn_moves R.picks R.passes };

    ghost bounded_waiting = { bounded_by R.turn_law };

    fn cores(&self) -> u8 {
        self.turn.cores()
    }

    fn grant(&mut self, ready: u8) -> Option<u8> {
        let granted = R::pick(self.turn, ready);
        self.turn = R::pass(self.turn, granted);
        granted
    }
}

impl<R: TurnRule> ByTurn<R> {
    // It starts with core 0's turn.
    pub fn new(cores: Cores) -> ByTurn<R>
        ensures made { (result.turn.cores ≡ cores) × (result.turn.core ≡ 0) }
        ensures wait { ⟦<ByTurn<R> as Arbiter>⟧.wait result ≡ cores.count }
        ensures rule { let a = ⟦<ByTurn<R> as Arbiter>⟧ in InOrder a.picks a.moves result (R.order cores.count) }
    {
        let turn = Turn::new(cores);
        ByTurn {
            turn,
            rule: PhantomData,
        }
    }
}
