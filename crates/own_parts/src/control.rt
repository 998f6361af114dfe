// An arbiter that serves core 0, the control core, more often than the others.
ghost use Rattle.std.specs.Prelude.{◌*◌, ◌<◌};

pub mod slots;

use model::Cores;

// Even slots belong to core 0, odd slots go round all cores: 0, 0, 0, 1, 0, 2 and so on. Only the slot's own core is
// granted. 2N slots make a round, so the wait is 2N.
#[derive(Clone, Copy)]
pub struct ControlFirst {
    cores: Cores,
    slot: u8,
    ghost within: { slot < 2 * cores.count },
}
