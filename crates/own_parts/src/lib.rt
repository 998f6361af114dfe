#![tactic(auto)]
// Parts of one's own: an arbiter and a memory as a licensee would write them.
mod control;
mod scratch;

pub use control::ControlFirst;
pub use scratch::Scratch;
