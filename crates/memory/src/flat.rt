// Flat memory: the caller's words.
ghost use Rattle.std.specs.Prelude.{◌≤◌};
ghost use Rattle.memory.specs.Words.{LineBounds};

pub mod lending;

// That L was checked: a memory has 1 to 64 lines.
#[derive(Clone, Copy)]
pub struct FlatLines<const L: usize> {
    ghost within: { (1 ≤ L) × (L ≤ 64) },
}

// The caller's words, lent, one for each line.
#[derive(Drop)]
pub struct Flat<'a> {
    words: &'a mut [u32],
    ghost within: { LineBounds words.now },
}
