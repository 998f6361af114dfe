// Whose turn it is among the cores.
ghost use Rattle.std.specs.Prelude.{◌<◌};

mod passing;

use model::Cores;

// The turn is the core that comes first at the next grant: the slot's own core, or in round robin the core after the last
// granted one. A slot number is kept as its core, so it can rise forever.
#[derive(Clone, Copy)]
pub struct Turn {
    cores: Cores,
    core: u8,
    ghost within: { core < cores.count },
}
