#![tactic(auto)]
// Backing memories: what stands behind the caches.
ghost use Rattle.std.specs.Prelude.{◌≡◌, ℕ, List, length};
ghost use Rattle.memory.specs.Words.{LineBounds, word_at, with_word};

mod flat;
mod keeping;
mod packed;

pub use flat::{Flat, FlatLines};
pub use keeping::write_and_read;
pub use packed::Packed;

// A memory means a list of L words, one for each line. Whoever keeps that meaning may put in a memory of their own: the
// ghost members, which no code holds, say what its words are and that there are 1 to 64.
pub trait Memory {
    // The words, that of line 0 first.
    ghost words: { Self → List ℕ };

    fn lines(&self) -> u8
        ensures { result ≡ length (words self.now) };

    // The word of a line; 0 from L up.
    fn read(&self, line: u8) -> u32
        ensures { result ≡ word_at (words self.now) line };

    // Replaces the word of that line and no other; does nothing from L up.
    fn write(&mut self, line: u8, word: u32)
        ensures { words self.new ≡ with_word (words self.old) line word };

    // The law of memories: L is 1 to 64.
    ghost bounds: { (m : Self) → LineBounds (words m) };
}
