// Numbers and things, printed for a developer under the names that stand for them.
use super::{Count, Ordinal};
use std::fmt;

// Not derived: it would print no more than `Count`, which tells cores from lines no longer.
impl<const MAX: u8> fmt::Debug for Count<MAX> {
    fn fmt<W: fmt::Write>(&self, f: &mut fmt::Formatter<W>) -> fmt::Result {
        let name = match MAX {
            8 => "Cores",
            64 => "Lines",
            _ => "Count",
        };
        f.debug_struct(name).field("count", &self.count).finish()
    }
}

impl<const MAX: u8> fmt::Debug for Ordinal<MAX> {
    fn fmt<W: fmt::Write>(&self, f: &mut fmt::Formatter<W>) -> fmt::Result {
        let name = match MAX {
            8 => "Core",
            64 => "Line",
            _ => "Ordinal",
        };
        f.debug_struct(name).field("number", &self.number).finish()
    }
}
