// What a caller gets from any arbiter: a core that stays ready is granted within the wait.
ghost use Rattle.std.specs.Prelude.{◌≡◌, ◌<◌, ◌≤◌, true, Some};
ghost use Rattle.arbiter.specs.Granting.{ready_at};
ghost use Rattle.arbiter.specs.Waiting.{Fair, InTime, grants_until, waited};

use crate::Arbiter;
use model::has_bit;

// The grants up to the core's own, counted. The loop ends because the core comes closer at each grant.
// Stays a loop that counts: a closure that grants changes the arbiter, and after a `find` a proof knows nothing of that.
fn counted<A: Arbiter>(arbiter: &mut A, ready: u8, core: u8) -> u8
    requires core { core < A.core_count arbiter.old }
    requires ready { ready_at ready core ≡ true }
    ensures until { (Some result, arbiter.new) ≡ grants_until A.picks A.moves ready core (A.wait arbiter.old) 0 arbiter.old }
    ensures soon { result ≤ A.wait arbiter.old }
{
    let mut passed = 0;
    while arbiter.grant(ready) != Some(core) {
        passed += 1;
    }
    passed + 1
}

// How many grants it takes, `core`'s own counted, until `core` is granted while `ready` stays: never more than the wait.
// None, and no grant, if there is no such core or it is not ready.
pub fn grants_until<A: Arbiter>(arbiter: &mut A, ready: u8, core: u8) -> Option<u8>
    ensures waited { (result, arbiter.new) ≡ waited A.core_count A.wait A.picks A.moves arbiter.old ready core }
    ensures soon { InTime A.core_count A.wait arbiter.old ready core result }
    ensures fair { Fair A.core_count A.wait A.picks A.moves arbiter.old }
{
    if core >= arbiter.cores() || !has_bit(ready.into(), core.into()) {
        return None;
    }
    Some(counted(arbiter, ready, core))
}
