// The parts of a listing: a text for each core.
ghost use Rattle.std.specs.Prelude.{◌≡◌, ℕ, ◌<◌, true, List, ◌++◌, is_ok, string_bytes, OnOk, slice_index_or};
ghost use Rattle.trace.specs.Bundle.{no_trace};
ghost use Rattle.listing.specs.Listings.{read, trace_text, total_text, for_cores};

use crate::records::Records;
use crate::row::Row;
use model::Cores;
use std::alloc::AllocError;
use trace::{Bundle, Span};

// What has a text for each core.
pub(crate) trait PerCore {
    // The text of a core.
    ghost text_of: { Self → ℕ → List ℕ };

    // Adds the text of a core.
    fn push(&self, text: &mut String, core: u8) -> Result<(), AllocError>
        requires { core < 8 }
        ensures { OnOk result (string_bytes text.new ≡ string_bytes text.old ++ text_of self.now core) };
}

// The rows of the records of each core, of a bundle that these bytes were found to hold.
#[derive(Clone, Copy)]
pub(crate) struct Rows<'a> {
    pub(crate) bytes: &'a [u8],
    pub(crate) bundle: Bundle,
    ghost readable: { (core : ℕ) → is_ok (read bytes.now (slice_index_or bundle.spans core no_trace)) ≡ true },
}

// The counts of each core.
#[derive(Clone, Copy)]
pub(crate) struct Totals(pub(crate) Bundle);

// Adds the texts of so many cores.
pub(crate) fn push_all<P: PerCore>(
    text: &mut String,
    cores: Cores,
    parts: &P,
) -> Result<(), AllocError>
    ensures { OnOk result (string_bytes text.new ≡ string_bytes text.old ++ for_cores (P.text_of parts.now) cores.count 0) }
{
    for core in 0..cores.count {
        parts.push(text, core)?;
    }
    Ok(())
}

// Adds the rows of one trace.
fn push_trace(text: &mut String, bytes: &[u8], core: u8, span: Span) -> Result<(), AllocError>
    requires { is_ok (read bytes.now span) ≡ true }
    ensures { OnOk result (string_bytes text.new ≡ string_bytes text.old ++ trace_text bytes.now core span) }
{
    for (index, access) in Records::of(bytes, span).enumerate() {
        let row = Row {
            core,
            index,
            access,
        };
        write!(text, "{row}")?;
    }
    Ok(())
}

impl PerCore for Rows<'_> {
    ghost text_of = { λ r core. trace_text r.bytes.now core (slice_index_or r.bundle.spans core no_trace) };

    fn push(&self, text: &mut String, core: u8) -> Result<(), AllocError> {
        push_trace(text, self.bytes, core, self.bundle.spans[usize::from(core)])
    }
}

impl PerCore for Totals {
    ghost text_of = { λ t core. total_text core (slice_index_or t.0.spans core no_trace) };

    fn push(&self, text: &mut String, core: u8) -> Result<(), AllocError> {
        let Span {
            start,
            end,
            records,
        } = self.0.spans[usize::from(core)];
        let bytes = end.saturating_sub(start);
        write!(text, ",{core}:{records}:{bytes}")
    }
}
