// One record, read from bytes that begin with its map byte.
ghost use Rattle.std.specs.Prelude.{◌≡◌, ◌+◌, ◌*◌, ◌<◌, ◌≤◌, true, cond, Ok, Err, length, take, drop};
ghost use Rattle.std.specs.Bool.{then_some};
ghost use Rattle.refusal.specs.declared.Reason.TheVariants.{KindByte};
ghost use Rattle.model.specs.Numbers.{kind_of};
ghost use Rattle.model.specs.Bits.{bit};
ghost use Rattle.trace.specs.Reading.{line_at, word_at, kind_at, size, big_endian, map_of, has, kind_in, strange_kind, decode};

use crate::Record;
use model::{Kind, has_bit};
use refusal::Reason;

// How many bytes the field of bit `k` takes: so many, or none where its bit does not stand.
fn bytes_if(map: u8, k: usize, width: usize) -> usize
    ensures { result ≡ width * bit map k }
{
    if has_bit(map.into(), k) { width } else { 0 }
}

fn line_at(map: u8) -> usize
    ensures { result ≡ line_at map }
{
    1 + bytes_if(map, 0, 2)
}

fn word_at(map: u8) -> usize
    ensures { result ≡ word_at map }
{
    line_at(map) + bytes_if(map, 1, 1)
}

fn kind_at(map: u8) -> usize
    ensures { result ≡ kind_at map }
{
    word_at(map) + bytes_if(map, 2, 4)
}

// The length of a record with this map byte.
pub(crate) fn size_of(map: u8) -> usize
    ensures { result ≡ size map }
{
    kind_at(map) + bytes_if(map, 3, 1)
}

// The first byte, 0 where there is none.
pub(crate) fn map_of(bytes: &[u8]) -> u8
    ensures { result ≡ map_of bytes.now }
{
    bytes.first().copied().unwrap_or(0)
}

// The `N` bytes from a place.
fn bytes_at<const N: usize>(bytes: &[u8], at: usize) -> [u8; N]
    requires { at + N ≤ length bytes.now }
    ensures { result ≡ take N (drop at bytes.now) }
{
    *bytes[at..].first_chunk().unwrap()
}

// Bytes that begin with a whole record: as many as its map byte says, or more.
#[derive(Clone, Copy)]
struct WholeRecord<'a> {
    bytes: &'a [u8],
    ghost whole: { size (map_of bytes.now) ≤ length bytes.now },
}

// Its fields, where they are present.
impl WholeRecord<'_> {
    // The bytes of the field of bit `k`, which stands at a place.
    // Stays an `if`: off a closure in generic code, for `then`, the check reads nothing.
    fn field<const N: usize>(&self, k: usize, at: usize) -> Option<[u8; N]>
        requires { has self.now.bytes.now k ≡ true → at + N ≤ length self.now.bytes.now }
        ensures { result ≡ then_some (has self.now.bytes.now k) (take N (drop at self.now.bytes.now)) }
    {
        if has_bit(map_of(self.bytes).into(), k) {
            Some(bytes_at(self.bytes, at))
        } else {
            None
        }
    }

    fn gap(&self) -> Option<u16>
        ensures { result ≡ then_some (has self.now.bytes.now 0) (big_endian 2 self.now.bytes.now 1) }
    {
        self.field(0, 1).map(u16::from_be_bytes)
    }

    fn line(&self) -> Option<u8>
        ensures { result ≡ then_some (has self.now.bytes.now 1) (big_endian 1 self.now.bytes.now (line_at (map_of self.now.bytes.now))) }
    {
        self.field(1, line_at(map_of(self.bytes)))
            .map(u8::from_be_bytes)
    }

    fn word(&self) -> Option<u32>
        ensures { result ≡ then_some (has self.now.bytes.now 2) (big_endian 4 self.now.bytes.now (word_at (map_of self.now.bytes.now))) }
    {
        self.field(2, word_at(map_of(self.bytes)))
            .map(u32::from_be_bytes)
    }

    // Its kind, by a byte that is 1 or 2; a load where there is no such byte.
    fn kind(&self) -> Result<Kind, Reason>
        ensures { result ≡ cond (strange_kind self.now.bytes.now) (Err KindByte) (Ok (kind_of (kind_in self.now.bytes.now))) }
    {
        let number = self
            .field(3, kind_at(map_of(self.bytes)))
            .map(u8::from_be_bytes);
        match number {
            None => Ok(Kind::Load),
            Some(1) => Ok(Kind::Store),
            Some(2) => Ok(Kind::Replace),
            Some(_) => Err(Reason::KindByte),
        }
    }
}

// The record that the bytes begin with, or the lowest number that is wrong with it.
#[tactic(auto, unfolding(crate::specs::Reading::decode))]
pub(crate) fn decode(bytes: &[u8], before: u8) -> Result<Record, Reason>
    ensures { result ≡ decode bytes.now before }
{
    let map = map_of(bytes);
    if map >= 16 {
        return Err(Reason::UnknownMapBits);
    }
    if bytes.len() < size_of(map) {
        return Err(Reason::CutShort);
    }
    let whole = WholeRecord { bytes };
    let kind = whole.kind()?;
    // A field that says what its absence says, or a word without a store, is redundant.
    let gap = match whole.gap() {
        Some(0) => return Err(Reason::RedundantField),
        Some(gap) => gap,
        None => 0,
    };
    let line = match whole.line() {
        Some(line) if line == before => return Err(Reason::RedundantField),
        Some(line) => line,
        None => before,
    };
    let word = match whole.word() {
        Some(word) if word == 0 || kind != Kind::Store => return Err(Reason::RedundantField),
        Some(word) => word,
        None => 0,
    };
    Ok(Record {
        gap,
        line,
        word,
        kind,
    })
}
