// Reading a trace, record after record.
ghost use Rattle.std.specs.Prelude.{◌≡◌, ℕ, length};
ghost use Rattle.trace.specs.Reader.{read_here, answer, after, remaining, taken};
ghost use Rattle.trace.specs.Whole.{window, trace_in, count_of, Rewritten, SameBytes};

use crate::Record;
use crate::decode::{decode, map_of, size_of};
use refusal::{Reason, Refusal};

// Reads the records from `at` up to `end` in the caller's bytes; `before` is the line of the record before.
#[derive(Drop)]
pub struct TraceReader<'a> {
    bytes: &'a [u8],
    at: usize,
    end: usize,
    before: u8,
}

impl<'a> TraceReader<'a> {
    // A trace that stands alone.
    pub fn new(bytes: &'a [u8]) -> TraceReader<'a>
        ensures { result ≡ record { bytes = bytes.entry; at = 0; end = length bytes.entry.now; before = 0 } }
    {
        TraceReader {
            bytes,
            at: 0,
            end: bytes.len(),
            before: 0,
        }
    }

    // A part of a trace, or a trace inside a bundle, whose record before `at` was of the line `before`.
    pub fn resume(bytes: &'a [u8], at: usize, end: usize, before: u8) -> TraceReader<'a>
        ensures { result ≡ record { bytes = bytes.entry; at = at; end = end; before = before } }
    {
        TraceReader {
            bytes,
            at,
            end,
            before,
        }
    }

    // How far it has read: where the next record stands and the line of the record before, from which `resume` goes on.
    pub fn position(&self) -> (usize, u8)
        ensures { result ≡ (self.now.at, self.now.before) }
    {
        (self.at, self.before)
    }

    // The bytes that are left, as far as there are any.
    fn ahead(&self) -> &'a [u8]
        ensures { result.now ≡ window self.now.bytes.now self.now.at self.now.end }
    {
        let end = self.end.min(self.bytes.len());
        self.bytes.get(self.at..end).unwrap_or(&[])
    }

    // The record at its place, and the place after it.
    #[tactic(auto, unfolding(crate::specs::Whole::read_at))]
    fn read_here(&self) -> Result<Option<(Record, usize)>, Reason>
        ensures { result ≡ read_here self.now }
    {
        if self.at >= self.end {
            return Ok(None);
        }
        let ahead = self.ahead();
        let record = decode(ahead, self.before)?;
        Ok(Some((record, self.at + size_of(map_of(ahead)))))
    }

    // The next record, or none at the end, again and again. A refused read moves nothing.
    #[tactic(auto, using(crate::proofs::Steps::remaining_taken))]
    pub fn next(&mut self) -> Result<Option<Record>, Refusal>
        ensures result { result ≡ answer self.old }
        ensures state { self.new ≡ after self.old }
        ensures rest { remaining self.old ≡ taken result (remaining self.new) }
    {
        let found = self.read_here().map_err(|reason| reason.at(self.at))?;
        let Some((record, next)) = found else {
            return Ok(None);
        };
        self.at = next;
        self.before = record.line;
        Ok(Some(record))
    }

    // How many records are left, or the first fault among them.
    // Stays a loop that counts: `next` refuses a fault again and again, so an iterator over it would have no end.
    pub(crate) fn count(mut self) -> Result<usize, Refusal>
        ensures { result ≡ count_of (remaining self.entry) }
    {
        let mut n = 0;
        while self.next()?.is_some() {
            n += 1;
        }
        Ok(n)
    }
}

// How many records a trace that stands alone has, or its first fault. Where it has none, the trace, written
// again from its records, has the same bytes, and so has every trace that is a part of the bytes.
#[tactic(auto, using(crate::proofs::Traces::rewrites_in, crate::proofs::Traces::accepted_rewrites))]
pub fn check_trace(bytes: &[u8]) -> Result<usize, Refusal>
    ensures count { result ≡ count_of (trace_in bytes.now) }
    ensures same { SameBytes bytes.now }
    ensures rewritten { (at end : ℕ) → Rewritten bytes.now at end }
{
    TraceReader::new(bytes).count()
}
