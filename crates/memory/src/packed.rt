// Packed memory: a bit map, and only the words that are not 0.
ghost use Rattle.std.specs.Prelude.{ℕ, ◌^◌, ◌<◌, count_ones, slice_index};

pub mod packing;

use model::Lines;

// A bit for each line whose word is not 0, and those words in rising line order. The cells of `kept` after them are unused
// and may hold anything.
// Stays an array: the project allows a memory no heap.
#[derive(Clone, Copy)]
pub struct Packed {
    lines: Lines,
    bits: u64,
    kept: [u32; 64],
    // bits stand for lines only
    ghost below: { bits < 2 ^ lines.count },
    // there is a word for each bit, and none of them is 0
    ghost filled: { (k : ℕ) → k < count_ones bits → 0 < slice_index kept k },
}
