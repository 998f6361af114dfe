// A memory of one's own: sixteen words on the chip.
ghost use Rattle.std.specs.Prelude.{◌≡◌, length};

pub mod words;

#[derive(Clone, Copy)]
pub struct Scratch {
    words: [u32; 16],
    ghost whole: { length words ≡ 16 },
}
