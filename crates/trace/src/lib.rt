#![tactic(auto)]
// Traces: what a core does, as records in bytes; and bundles, one trace for each core.
mod bundle;
mod decode;
mod reader;
mod writer;

pub use bundle::{Bundle, Span, check_bundle};
use model::Kind;
pub use reader::{TraceReader, check_trace};
pub use writer::{Draft, write_record};

// One access of a core: `gap` is how long it waits before it, `word` what a store puts there.
#[derive(Clone, Copy, PartialEq, Eq, Debug)]
pub struct Record {
    pub gap: u16,
    pub line: u8,
    pub word: u32,
    pub kind: Kind,
}
