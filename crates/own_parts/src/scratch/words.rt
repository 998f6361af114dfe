ghost use Rattle.std.specs.Prelude.{◌≡◌, replicate};
ghost use Rattle.std.proofs.Common.{arith};

use super::Scratch;
use memory::Memory;

impl Scratch {
    // Every word is `word`.
    pub fn filled(word: u32) -> Scratch
        ensures { result.words ≡ replicate 16 word }
    {
        Scratch { words: [word; 16] }
    }
}

impl Memory for Scratch {
    ghost words = { λ m. m.words };

    ghost bounds = { λ m. (omega (arith, m.whole), omega (arith, m.whole)) };

    fn lines(&self) -> u8 {
        16
    }

    fn read(&self, line: u8) -> u32 {
        self.words.get(usize::from(line)).copied().unwrap_or(0)
    }

    fn write(&mut self, line: u8, word: u32) {
        // By index: of what is written through `get_mut`, a proof knows the length and no word.
        let place = usize::from(line);
        if place < self.words.len() {
            self.words[place] = word;
        }
    }
}
