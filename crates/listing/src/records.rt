// The records of a trace that was checked.
ghost use Rattle.std.specs.Prelude.{◌≡◌, ◌^◌, ◌<◌, true, length, is_ok};
ghost use Rattle.std.specs.Iterator.{YieldsFirst, item_count};
ghost use Rattle.trace.specs.Reader.{remaining};
ghost use Rattle.listing.specs.Listings.{read, records_of};

use trace::{Record, Span, TraceReader};

// Reads what no check has refused, so that a read has no fault.
#[derive(Drop)]
pub(crate) struct Records<'a> {
    reader: TraceReader<'a>,
    ghost checked: { is_ok (remaining reader) ≡ true },
}

impl<'a> Records<'a> {
    // Those of a span; there are no more of them than bytes.
    pub(crate) fn of(bytes: &'a [u8], span: Span) -> Records<'a>
        requires { is_ok (read bytes.now span) ≡ true }
        ensures records { remaining result.reader ≡ read bytes.entry.now span }
        ensures few { length (records_of (remaining result.reader)) < 2 ^ 64 }
    {
        Records {
            reader: TraceReader::resume(bytes, span.start, span.end, 0),
        }
    }
}

impl Iterator for Records<'_> {
    type Item = Record;

    ghost next_gives = { YieldsFirst (λ r. records_of (remaining r.reader)) };

    ghost remaining = { item_count (λ r. records_of (remaining r.reader)) };

    fn next(&mut self) -> Option<Record> {
        self.reader.next().unwrap()
    }
}
