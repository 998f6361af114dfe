#![tactic(auto)]
// What the programs read from standard input: five settings, one byte each, and a bundle of traces.
ghost use Rattle.std.specs.Prelude.{◌≡◌, ◌+◌, drop, IfOk};
ghost use Rattle.trace.specs.Bundle.{AllReadable};
ghost use Rattle.input.specs.Inputs.{size_limit, width_or, settings_of, input_of, plain_settings, plain_input};

use model::{ArbiterChoice, Cores, Path};
use refusal::{Reason, Refusal};
use trace::{Bundle, check_bundle};

// The settings of a run, each within its range.
#[derive(Clone, Copy)]
pub struct Settings {
    pub cores: Cores,
    pub slot_width: u8,
    pub service_width: u8,
    pub path: Path,
    pub arbiter: ArbiterChoice,
}

// An input that was checked whole.
#[derive(Clone, Copy)]
pub struct Input {
    pub settings: Settings,
    pub bundle: Bundle,
}

// How many bytes of its input a program reads: one more than an input can have, so that a longer one is known by its
// length.
pub fn read_limit() -> u64
    ensures { result ≡ size_limit + 1 }
{
    65_537
}

// A width as it is given, where 0 stands for the default.
fn width_or(given: u8, default: u8) -> u8
    ensures { result ≡ width_or given default }
{
    if given == 0 { default } else { given }
}

// The bundle of an input: what follows the five settings.
pub fn bundle_part(bytes: &[u8]) -> &[u8]
    ensures { result.now ≡ drop 5 bytes.now }
{
    bytes.get(5..).unwrap_or(&[])
}

// Checks the size of an input, and then the number of cores, the path and the arbiter. Widths have no fault.
pub fn check_settings(bytes: &[u8]) -> Result<Settings, Refusal>
    ensures { plain_settings result ≡ settings_of bytes.now }
{
    let &[cores, slot_width, service_width, path, arbiter, ..] = bytes else {
        return Err(Reason::InputSize.at(0));
    };
    if bytes.len() > 65_536 {
        return Err(Reason::InputSize.at(0));
    }
    Ok(Settings {
        cores: Cores::try_from(u32::from(cores))?,
        slot_width: width_or(slot_width, 4),
        service_width: width_or(service_width, 50),
        path: Path::try_from(path)?,
        arbiter: ArbiterChoice::try_from(arbiter)?,
    })
}

// Checks an input whole: the settings, and then the bundle, whose places do not count the settings. Every trace of
// an accepted bundle reads to its end.
pub fn check_input(bytes: &[u8]) -> Result<Input, Refusal>
    ensures value { plain_input result ≡ input_of bytes.now }
    ensures readable { IfOk result (λ i. AllReadable (drop 5 bytes.now) i.bundle) }
{
    let settings = check_settings(bytes)?;
    let bundle = check_bundle(bundle_part(bytes), settings.cores)?;
    Ok(Input { settings, bundle })
}
