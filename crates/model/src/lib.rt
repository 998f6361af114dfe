#![tactic(auto)]
// The words of the model that stand for numbers or letters: kinds of access, paths, arbiters, cores and lines; and a bit of a
// number.
ghost use Rattle.std.specs.Prelude.{◌≡◌, [], ◌∷◌, Some, Ok};
ghost use Rattle.model.specs.Numbers.{kind_number, kind_letter, kind_check, path_number, path_check, arbiter_number, arbiter_check};

mod bits;
mod counts;

pub use bits::has_bit;
pub use counts::{Core, Cores, Count, Line, Lines, Ordinal};
use refusal::{Reason, Refusal};
use std::fmt;

// What a core asks of a line.
#[derive(Clone, Copy, PartialEq, Eq, Debug)]
pub enum Kind {
    Load,
    Store,
    Replace,
}

// How a word gets from the core that owns a line to the core that asks for it.
#[derive(Clone, Copy, PartialEq, Eq, Debug)]
pub enum Path {
    ThroughMemory,
    Direct,
}

// Which of the three shipped arbiters grants the bus.
#[derive(Clone, Copy, PartialEq, Eq, Debug)]
pub enum ArbiterChoice {
    WorkConserving,
    FixedSlots,
    RoundRobin,
}

// The kind of a number; from 3 up there is none.
impl TryFrom<u8> for Kind {
    type Error = Refusal;

    ghost try_from_gives = { λ number r. r ≡ kind_check number };

    fn try_from(number: u8) -> Result<Kind, Refusal> {
        match number {
            0 => Ok(Kind::Load),
            1 => Ok(Kind::Store),
            2 => Ok(Kind::Replace),
            _ => Err(Reason::KindRange.at(0)),
        }
    }
}

// Its number, by which it is found again.
impl From<Kind> for u8 {
    ghost from_gives = { λ kind number. (number ≡ kind_number kind) × (kind_check number ≡ Ok kind) };

    fn from(kind: Kind) -> u8 {
        match kind {
            Kind::Load => 0,
            Kind::Store => 1,
            Kind::Replace => 2,
        }
    }
}

// Its letter in rows.
impl fmt::Display for Kind {
    ghost output = { λ k. Some (kind_letter k ∷ []) };

    fn fmt<W: fmt::Write>(&self, f: &mut fmt::Formatter<W>) -> fmt::Result {
        f.write_str(match self {
            Kind::Load => "L",
            Kind::Store => "S",
            Kind::Replace => "R",
        })
    }
}

impl TryFrom<u8> for Path {
    type Error = Refusal;

    ghost try_from_gives = { λ number r. r ≡ path_check number };

    fn try_from(number: u8) -> Result<Path, Refusal> {
        match number {
            0 => Ok(Path::ThroughMemory),
            1 => Ok(Path::Direct),
            _ => Err(Reason::SettingRange.at(0)),
        }
    }
}

// Its number, by which it is found again.
impl From<Path> for u8 {
    ghost from_gives = { λ path number. (number ≡ path_number path) × (path_check number ≡ Ok path) };

    fn from(path: Path) -> u8 {
        match path {
            Path::ThroughMemory => 0,
            Path::Direct => 1,
        }
    }
}

impl TryFrom<u8> for ArbiterChoice {
    type Error = Refusal;

    ghost try_from_gives = { λ number r. r ≡ arbiter_check number };

    fn try_from(number: u8) -> Result<ArbiterChoice, Refusal> {
        match number {
            0 => Ok(ArbiterChoice::WorkConserving),
            1 => Ok(ArbiterChoice::FixedSlots),
            2 => Ok(ArbiterChoice::RoundRobin),
            _ => Err(Reason::SettingRange.at(0)),
        }
    }
}

// Its number, by which it is found again.
impl From<ArbiterChoice> for u8 {
    ghost from_gives = { λ choice number. (number ≡ arbiter_number choice) × (arbiter_check number ≡ Ok choice) };

    fn from(choice: ArbiterChoice) -> u8 {
        match choice {
            ArbiterChoice::WorkConserving => 0,
            ArbiterChoice::FixedSlots => 1,
            ArbiterChoice::RoundRobin => 2,
        }
    }
}
