ghost use Rattle.std.specs.Prelude.{◌≡◌};
ghost use Rattle.model.specs.Numbers.{count_check, ordinal_check, cores_check, lines_check, core_check, line_check, counted, numbered};

use super::{Core, Cores, Count, Line, Lines, Ordinal};
use refusal::{Reason, Refusal};

impl<const MAX: u8> Count<MAX> {
    // So many things, or the refusal for this reason.
    fn of(number: u32, reason: Reason) -> Result<Count<MAX>, Refusal>
        ensures { counted MAX result ≡ count_check MAX reason number }
    {
        match u8::try_from(number) {
            Ok(count) if count >= 1 && count <= MAX => Ok(Count { count }),
            _ => Err(reason.at(0)),
        }
    }

    // One of so many things by its number, or the refusal for this reason.
    fn nth(self, number: u8, reason: Reason) -> Result<Ordinal<MAX>, Refusal>
        ensures { numbered MAX result ≡ ordinal_check self.entry.count reason number }
    {
        if number >= self.count {
            return Err(reason.at(0));
        }
        Ok(Ordinal { number })
    }
}

// The number is wide so that any count can be asked about.
// Stays beside that of `Lines`: each names its refusal.
impl TryFrom<u32> for Cores {
    type Error = Refusal;

    ghost try_from_gives = { λ number r. counted 8 r ≡ cores_check number };

    fn try_from(number: u32) -> Result<Cores, Refusal> {
        Count::of(number, Reason::CoreCount)
    }
}

// The number is wide so that any count can be asked about.
impl TryFrom<u32> for Lines {
    type Error = Refusal;

    ghost try_from_gives = { λ number r. counted 64 r ≡ lines_check number };

    fn try_from(number: u32) -> Result<Lines, Refusal> {
        Count::of(number, Reason::LineCount)
    }
}

impl Core {
    // The core of a number, of a bus with so many cores.
    // Stays a function, beside that of `Line`: it checks two values together, and names its refusal.
    pub fn check(number: u8, cores: Cores) -> Result<Core, Refusal>
        ensures { numbered 8 result ≡ core_check cores.count number }
    {
        cores.nth(number, Reason::CoreRange)
    }
}

impl Line {
    // The line of a number, of a memory with so many lines.
    pub fn check(number: u8, lines: Lines) -> Result<Line, Refusal>
        ensures { numbered 64 result ≡ line_check lines.count number }
    {
        lines.nth(number, Reason::LineRange)
    }
}
