// What a caller gets from any memory: it keeps what was written.
ghost use Rattle.std.specs.Prelude.{◌≡◌, ℕ, length, if◌then◌else◌, ◌≢◌, nat_lt};
ghost use Rattle.memory.specs.Words.{word_at, with_word};

use crate::Memory;

// Writes a line and reads it back: the word that was written, or 0 where there is no such line. Other lines stay.
pub fn write_and_read<M: Memory>(memory: &mut M, line: u8, word: u32) -> u32
    ensures back { result ≡ (if nat_lt line (length (M.words memory.old)) then word else 0) }
    ensures after { M.words memory.new ≡ with_word (M.words memory.old) line word }
    ensures others { (other : ℕ) → (other ≢ line) → word_at (M.words memory.new) other ≡ word_at (M.words memory.old) other }
{
    memory.write(line, word);
    memory.read(line)
}
