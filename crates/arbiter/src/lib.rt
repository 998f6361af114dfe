#![tactic(auto)]
// Arbiters: which ready core's message goes out on the bus next.
ghost use Rattle.std.specs.Prelude.{◌≡◌, ℕ, Option};
ghost use Rattle.arbiter.specs.Granting.{BoundedWaiting};

mod by_turn;
mod fixed_slots;
mod round_robin;
mod shipped;
mod turn;
mod waiting;
mod work_conserving;

pub use fixed_slots::FixedSlots;
pub use round_robin::RoundRobin;
pub use shipped::shipped_arbiters;
pub use waiting::grants_until;
pub use work_conserving::WorkConserving;

// An arbiter grants the bus to one ready core at a time, with bounded waiting: it has a wait W, and a core that stays ready
// is granted at one of the next W grants. Whoever keeps the granting law may put in an arbiter of their own; the ghost
// members, which no code holds, say how it is kept.
pub trait Arbiter: Sized {
    // N, the number of cores, 1 to 8.
    ghost core_count: { Self → ℕ };

    // W, the wait, 1 to 64.
    ghost wait: { Self → ℕ };

    // How often a core can still be passed over while it stays ready, 0 to W − 1.
    ghost distance: { Self → ℕ → ℕ };

    // The core that a grant answers, if any, when these cores are ready.
    ghost picks: { Self → ℕ → Option ℕ };

    // The arbiter after that grant.
    ghost moves: { Self → ℕ → Self };

    fn cores(&self) -> u8
        ensures { result ≡ core_count self.now };

    // Bit c of `ready` stands for core c; bits from N up count for nothing.
    fn grant(&mut self, ready: u8) -> Option<u8>
        ensures answer { result ≡ picks self.old ready }
        ensures after { self.new ≡ moves self.old ready };

    // The granting law. N and W never change; bits from N up count for nothing; a granted core is one of the N, and ready;
    // a ready core that is not granted has a smaller distance afterwards; distances are 0 to W − 1.
    ghost bounded_waiting: { BoundedWaiting core_count wait distance picks moves };
}
