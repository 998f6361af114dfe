// Bundles: a map byte, then for each core whose bit stands a length of two bytes and a trace.
ghost use Rattle.std.specs.Prelude.{◌≡◌, ◌+◌, nat_le, length, replicate, IfOk};
ghost use Rattle.std.specs.Bool.{then_some};
ghost use Rattle.trace.specs.Reading.{big_endian};
ghost use Rattle.trace.specs.Bundle.{no_trace, span_at, spans_from, bundle_of, Readable, AllReadable};

use crate::decode::map_of;
use crate::reader::TraceReader;
use model::{Cores, has_bit};
use refusal::{Reason, Refusal};

// Where a core's trace begins and ends in the bundle, and how many records it has; all 0 for a core without a trace.
#[derive(Clone, Copy, PartialEq, Eq, Debug)]
pub struct Span {
    pub start: usize,
    pub end: usize,
    pub records: usize,
}

// The span of a core without a trace.
// Stays a span, and no `Option`: it reads as an empty trace does, and no caller asks which it is.
const NO_TRACE: Span = Span {
    start: 0,
    end: 0,
    records: 0,
};

// A bundle that was checked whole: the trace of each core.
// Stays eight spans: a map byte has eight bits, and a core without a trace has a span too.
// Stays without a fact on what its traces hold, which the contracts of the checks state: a bundle keeps no bytes.
#[derive(Clone, Copy, Debug)]
pub struct Bundle {
    pub spans: [Span; 8],
}

// The length field at a place, if the bytes have one there.
fn size_at(bytes: &[u8], at: usize) -> Option<u16>
    ensures { result ≡ then_some (nat_le (at + 2) (length bytes.now)) (big_endian 2 bytes.now at) }
{
    let size = bytes.get(at..)?.first_chunk()?;
    Some(u16::from_be_bytes(*size))
}

// The trace whose length field stands at a place, checked whole.
#[tactic(auto, using(crate::proofs::Traces::rewrites_in), unfolding(crate::specs::Bundle::span_at))]
fn span_at(bytes: &[u8], at: usize) -> Result<Span, Refusal>
    ensures value { result ≡ span_at bytes.now at }
    ensures readable { IfOk result (Readable bytes.now) }
{
    let cut_short = Reason::CutShort.at(at);
    let size = size_at(bytes, at).ok_or(cut_short)?;
    let start = at + 2;
    let end = start + usize::from(size);
    if bytes.len() < end {
        return Err(cut_short);
    }
    let records = TraceReader::resume(bytes, start, end, 0).count()?;
    Ok(Span {
        start,
        end,
        records,
    })
}

// The traces that the map byte names, one after another up to the end of the bytes.
#[tactic(auto, using(crate::proofs::Spans::spans_step, crate::proofs::Spans::spans_end))]
fn check_spans(bytes: &[u8]) -> Result<Bundle, Refusal>
    ensures value { result ≡ spans_from 8 bytes.now 0 1 (replicate 8 no_trace) }
    ensures readable { IfOk result (AllReadable bytes.now) }
{
    let map = map_of(bytes);
    let mut spans = [NO_TRACE; 8];
    let mut at = 1;
    for (core, span) in spans.iter_mut().enumerate() {
        if has_bit(map.into(), core) {
            *span = span_at(bytes, at)?;
            at = span.end;
        }
    }
    if at < bytes.len() {
        return Err(Reason::TrailingBytes.at(at));
    }
    Ok(Bundle { spans })
}

// A bundle for so many cores, checked whole, or its first fault. Every trace of it reads to its end.
pub fn check_bundle(bytes: &[u8], cores: Cores) -> Result<Bundle, Refusal>
    ensures value { result ≡ bundle_of bytes.now cores.count }
    ensures readable { IfOk result (AllReadable bytes.now) }
{
    let Some(&map) = bytes.first() else {
        return Err(Reason::CutShort.at(0));
    };
    let unknown_bits = u16::from(map) >> cores.count;
    if unknown_bits != 0 {
        return Err(Reason::UnknownMapBits.at(0));
    }
    check_spans(bytes)
}
