ghost use Rattle.std.specs.Prelude.{◌≡◌};
ghost use Rattle.model.specs.Numbers.{lines_check};
ghost use Rattle.memory.specs.Checks.{flat_counted};

use super::{Flat, FlatLines};
use crate::Memory;
use refusal::{Reason, Refusal};

impl<const L: usize> FlatLines<L> {
    // The check before the making.
    // Stays beside that of `Lines`: by way of it, a length would first have to become a `u32`.
    pub fn check() -> Result<FlatLines<L>, Refusal>
        ensures { flat_counted L result ≡ lines_check L }
    {
        if L < 1 || L > 64 {
            return Err(Reason::LineCount.at(0));
        }
        Ok(FlatLines {})
    }
}

impl<'a> Flat<'a> {
    // A memory of these words as they stand.
    pub fn new<const L: usize>(words: &'a mut [u32; L], _checked: FlatLines<L>) -> Flat<'a>
        ensures { result.words.now ≡ words.old }
    {
        Flat { words }
    }

    // The loan, with the words that it holds now.
    pub fn into_words(self) -> &'a mut [u32]
        ensures { result.now ≡ self.entry.words.now }
    {
        let words = self.words;
        words
    }
}

// Stays beside the same code in `Scratch`, which is an example and stands alone.
impl<'a> Memory for Flat<'a> {
    ghost words = { λ m. m.words.now };

    ghost bounds = { λ m. m.within };

    fn lines(&self) -> u8 {
        u8::try_from(self.words.len()).unwrap()
    }

    fn read(&self, line: u8) -> u32 {
        self.words.get(usize::from(line)).copied().unwrap_or(0)
    }

    fn write(&mut self, line: u8, word: u32) {
        // Stays by index: of what is written through `get_mut`, a proof knows the length and no word.
        let place = usize::from(line);
        if place < self.words.len() {
            self.words[place] = word;
        }
    }
}
