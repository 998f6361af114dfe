ghost use Rattle.std.specs.Prelude.{Some};
ghost use Rattle.listing.specs.Listings.{row_text};

use std::fmt;
use trace::Record;

// One record, with its core and its place in that core's trace.
#[derive(Clone, Copy)]
pub struct Row {
    pub core: u8,
    pub index: usize,
    pub access: Record,
}

impl fmt::Display for Row {
    ghost output = { λ x. Some (row_text x) };

    fn fmt<W: fmt::Write>(&self, f: &mut fmt::Formatter<W>) -> fmt::Result {
        let Row {
            core,
            index,
            access,
        } = *self;
        let Record {
            gap,
            line,
            word,
            kind,
        } = access;
        write!(f, "{core},{index},{gap},{kind},{line},{word}\n")
    }
}
