// Numbers of cores and of lines, and one core or line of them, that were checked.
ghost use Rattle.std.specs.Prelude.{◌<◌, ◌≤◌};

mod checks;
mod printing;

// A number of things, 1 to MAX.
#[derive(Clone, Copy, PartialEq, Eq)]
pub struct Count<const MAX: u8> {
    pub count: u8,
    ghost within: { (1 ≤ count) × (count ≤ MAX) },
}

// One of MAX things, by its number, from 0.
#[derive(Clone, Copy, PartialEq, Eq)]
pub struct Ordinal<const MAX: u8> {
    pub number: u8,
    ghost within: { number < MAX },
}

// How many cores a bus has: 1 to 8.
pub type Cores = Count<8>;

// How many lines a memory has: 1 to 64.
pub type Lines = Count<64>;

// One of the 8 cores that a bus can have.
pub type Core = Ordinal<8>;

// One of the 64 lines that a memory can have.
pub type Line = Ordinal<64>;
