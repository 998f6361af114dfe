#![tactic(auto)]
// Why a call says no: a reason, which has a number, and the place of the fault.
ghost use Rattle.std.specs.Prelude.{◌≡◌, Some};
ghost use Rattle.refusal.specs.Refusals.{number, refusal, refused_text};

use std::fmt;

// The sixteen reasons, in the order in which they are checked. The number of each is its place in this list, from 1.
#[derive(Clone, Copy, PartialEq, Eq, Debug)]
pub enum Reason {
    // The program's input is shorter than its five settings or longer than 65,536 bytes.
    InputSize = 1,
    // The number of cores is outside 1 to 8.
    CoreCount,
    // The number of lines is outside 1 to 64.
    LineCount,
    // A slot width, service width, path or arbiter number is outside its range.
    SettingRange,
    // There is no such core.
    CoreRange,
    // There is no such kind of access.
    KindRange,
    // There is no such line.
    LineRange,
    // The core still has a request, or a report that was not collected; at the closing of a run, some core has.
    CoreBusy,
    // A line in state I cannot be replaced.
    ReplaceInvalid,
    // The clock is at its end.
    ClockEnd,
    // A map byte has a bit that means nothing.
    UnknownMapBits,
    // The bytes end inside a record or a bundle.
    CutShort,
    // A kind byte is neither 1 nor 2.
    KindByte,
    // A field says what its absence would say, or a word stands without a store.
    RedundantField,
    // Bytes follow the end of the bundle.
    TrailingBytes,
    // The caller's buffer has too little free space.
    NoSpace,
}

// A reason, and the offset of the fault in the bytes given; 0 where the fault has no offset.
// Stays 0 and no `Option`: the project's rows print a place for every refusal.
#[derive(Clone, Copy, PartialEq, Eq, Debug)]
pub struct Refusal {
    pub reason: Reason,
    pub place: usize,
}

impl From<Reason> for u8 {
    ghost from_gives = { λ reason n. n ≡ number reason };

    fn from(reason: Reason) -> u8 {
        // Stays `as`: it reads the discriminant.
        reason as u8
    }
}

impl Reason {
    // The refusal for this reason at a place.
    pub fn at(self, place: usize) -> Refusal
        ensures { result ≡ refusal self place }
    {
        Refusal {
            reason: self,
            place,
        }
    }
}

// As the programs print it.
impl fmt::Display for Refusal {
    ghost output = { λ x. Some (refused_text x) };

    fn fmt<W: fmt::Write>(&self, f: &mut fmt::Formatter<W>) -> fmt::Result {
        let Refusal { reason, place } = *self;
        let number = u8::from(reason);
        write!(f, "refused,{number},{place}")
    }
}
