#![tactic(auto)]
// Cache coherence: the states of a line in a core's cache, the controller that moves it from one to the other, the table of
// its moves, and the records of every line in every core.
mod controller;
mod places;
mod states;
mod table;

pub use controller::LineRecord;
pub use places::Places;
pub use states::{Event, LineState, Message};
pub use table::{TABLE, entry, whole_table};
