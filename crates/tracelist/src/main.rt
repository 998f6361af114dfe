#![tactic(auto)]
// Lists the program input that stands on standard input, or says why it is refused.
use input::read_limit;
use listing::listing;
use std::io::{Read, Write};
use std::{env, io};

const USAGE: &str = "usage: tracelist < INPUT

Lists the traces of INPUT, or says why INPUT is refused.

INPUT is five bytes and a bundle of traces: the number of cores (1 to 8), the
slot width and the service width (0 stands for 4 and for 50), the path (0 or 1)
and the arbiter (0, 1 or 2). docs/FORMATS.md says what a bundle is.

A listing has a row for each record: core, index, gap, kind (L, S or R), line
and word. Its last row has core:records:bytes for each core. A refused input
gives one row: refused, the refusal's number and the place of the fault in the
bundle. docs/REFUSALS.md says what the numbers mean.
";

fn main(rt: HostRuntime) -> io::Result<()> {
    if env::args(&rt)?.count() > 1 {
        return rt.stdout().write_all(USAGE.as_bytes());
    }
    let heap = rt.alloc();
    let mut input = Vec::new(heap);
    rt.stdin().take(read_limit()).read_to_end(&mut input)?;
    let text = listing(heap, &input)?;
    rt.stdout().write_all(text.as_bytes())
}
