ghost use Rattle.std.specs.Prelude.{◌≡◌, replicate};
ghost use Rattle.memory.specs.Packing.{bitmap_of, non_zero};
ghost use Rattle.memory.specs.Unpacked.{words_of, packed_bounds};
ghost use Rattle.memory.specs.Words.{word_at, with_word};

use super::Packed;
use crate::Memory;
use model::{Lines, has_bit};

impl Packed {
    // Every word is 0.
    #[tactic(auto, using(crate::proofs::Bitmaps::no_bits))]
    pub fn new(lines: Lines) -> Packed
        ensures words { words_of result ≡ replicate lines.count 0 }
        ensures made { (result.lines ≡ lines) × (result.bits ≡ 0) }
    {
        Packed {
            lines,
            bits: 0,
            kept: [0; 64],
        }
    }

    // The bit map: bit i stands if and only if the word of line i is not 0.
    #[tactic(auto, using(crate::proofs::Kept::is_bitmap))]
    pub fn bits(&self) -> u64
        ensures { result ≡ bitmap_of (words_of self.now) }
    {
        self.bits
    }

    // The words that are kept: those that are not 0, in rising line order.
    #[tactic(auto, using(crate::proofs::Kept::is_kept))]
    pub fn kept(&self) -> &[u32]
        ensures { result.now ≡ non_zero (words_of self.now) }
    {
        // Stays `as`: there is no `From<u32>` for `usize`.
        &self.kept[..self.bits.count_ones() as usize]
    }

    // The word of a line; 0 where there is no such line.
    #[tactic(auto, using(crate::proofs::Bitmaps::reading))]
    fn word(&self, line: u8) -> u32
        ensures { result ≡ word_at (words_of self.now) line }
    {
        if has_bit(self.bits, line.into()) {
            let rank = (self.bits % (1 << line)).count_ones();
            // Stays `as`: there is no `From<u32>` for `usize`.
            self.kept[rank as usize]
        } else {
            0
        }
    }

    // A copy with `word` at `line`, packed line by line: a word of 0 is not kept.
    #[tactic(auto, using(crate::proofs::Bitmaps::packing))]
    fn copy_with(&self, line: u8, word: u32) -> Packed
        ensures lines { result.lines ≡ self.now.lines }
        ensures words { words_of result ≡ with_word (words_of self.now) line word }
    {
        let mut bits = 0u64;
        let mut kept = [0; 64];
        for i in 0..self.lines.count {
            let next = if i == line { word } else { self.word(i) };
            if next == 0 {
                continue;
            }
            // Stays `as`: there is no `From<u32>` for `usize`.
            kept[bits.count_ones() as usize] = next;
            bits |= 1 << i;
        }
        Packed {
            lines: self.lines,
            bits,
            kept,
        }
    }
}

impl Memory for Packed {
    ghost words = { words_of };

    ghost bounds = { packed_bounds };

    #[tactic(auto, using(crate::proofs::Bitmaps::length_unpacked))]
    fn lines(&self) -> u8 {
        self.lines.count
    }

    fn read(&self, line: u8) -> u32 {
        self.word(line)
    }

    fn write(&mut self, line: u8, word: u32) {
        *self = self.copy_with(line, word);
    }
}
