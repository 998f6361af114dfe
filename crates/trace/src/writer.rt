// Writing records into a lent buffer.
ghost use Rattle.std.specs.Prelude.{◌≡◌, ◌+◌, ◌≤◌, [], length, unwrap_or, is_some, IfOk, OnOk};
ghost use Rattle.trace.specs.Reading.{size};
ghost use Rattle.trace.specs.Whole.{Holds, ReadsBack};
ghost use Rattle.trace.specs.Fields.{map_of_fields, with_fields};
ghost use Rattle.trace.specs.Writing.{encode, put, Writable, record_from, placed, filled};

use crate::Record;
use crate::decode::size_of;
use model::Kind;
use refusal::{Reason, Refusal};

// A record to be written, as a tool hands it in.
// Stays a type beside `Record`, which has a kind for its number: what was checked is told apart by its type.
#[derive(Clone, Copy, PartialEq, Eq, Debug)]
pub struct Draft {
    pub gap: u16,
    pub line: u8,
    pub word: u32,
    // Stays a number: a tool may hand in one that is no kind, and gets its refusal.
    pub kind: u8,
}

// The record that a draft stands for: there is none with a kind above 2, or with a word and no store.
impl TryFrom<Draft> for Record {
    type Error = Refusal;

    ghost try_from_gives = { λ draft r. (r ≡ record_from draft) × IfOk r Writable };

    fn try_from(draft: Draft) -> Result<Record, Refusal> {
        let Draft {
            gap,
            line,
            word,
            kind,
        } = draft;
        let kind = Kind::try_from(kind)?;
        if word != 0 && kind != Kind::Store {
            return Err(Reason::RedundantField.at(0));
        }
        Ok(Record {
            gap,
            line,
            word,
            kind,
        })
    }
}

// The bytes of the fields of a record that are present: each that does not say what its absence says.
#[derive(Clone, Copy)]
struct Fields {
    gap: Option<[u8; 2]>,
    line: Option<[u8; 1]>,
    word: Option<[u8; 4]>,
    kind: Option<[u8; 1]>,
}

impl Fields {
    // Those of a record after one of the line `before`.
    fn of(rec: Record, before: u8) -> Fields
        ensures size { size (map_of_fields result.gap result.line result.word result.kind) ≡ length (encode rec before) }
        ensures bytes { with_fields result.gap result.line result.word result.kind ≡ encode rec before }
    {
        let kind = u8::from(rec.kind);
        Fields {
            gap: (rec.gap != 0).then_some(rec.gap.to_be_bytes()),
            line: (rec.line != before).then_some([rec.line]),
            word: (rec.word != 0).then_some(rec.word.to_be_bytes()),
            kind: (kind != 0).then_some([kind]),
        }
    }

    // The map byte.
    fn map(&self) -> u8
        ensures { result ≡ map_of_fields self.now.gap self.now.line self.now.word self.now.kind }
    {
        let gap = u8::from(self.gap.is_some());
        let line = u8::from(self.line.is_some());
        let word = u8::from(self.word.is_some());
        let kind = u8::from(self.kind.is_some());
        gap + 2 * line + 4 * word + 8 * kind
    }

    // How many bytes the record takes.
    fn size(&self) -> usize
        ensures { result ≡ size (map_of_fields self.now.gap self.now.line self.now.word self.now.kind) }
    {
        size_of(self.map())
    }
}

// A buffer, and the place in it where the next field goes.
#[derive(Drop)]
struct Cursor<'a> {
    out: &'a mut [u8],
    at: usize,
}

impl Cursor<'_> {
    // Puts the bytes of a field, if it is present.
    #[tactic(auto, unfolding(crate::specs::Writing::put))]
    fn put<const N: usize>(&mut self, field: Option<[u8; N]>)
        requires { self.old.at + length (unwrap_or field []) ≤ length self.old.out.now }
        ensures same_buffer { self.new.out.ghost_name ≡ self.old.out.ghost_name }
        ensures same_length { length self.new.out.now ≡ length self.old.out.now }
        ensures place { self.new.at ≡ self.old.at + length (unwrap_or field.entry []) }
        ensures bytes { self.new.out.now ≡ put self.old.out.now self.old.at (unwrap_or field.entry []) }
    {
        if let Some(bytes) = field {
            let end = self.at + N;
            self.out[self.at..end].copy_from_slice(&bytes);
            self.at = end;
        }
    }
}

// Puts a record at a place that has room for it.
fn put_record(out: &mut [u8], at: usize, fields: Fields) -> usize
    requires { at + length (with_fields fields.gap fields.line fields.word fields.kind) ≤ length out.old }
    ensures place { result ≡ at + length (with_fields fields.gap fields.line fields.word fields.kind) }
    ensures bytes { out.new ≡ put out.old at (with_fields fields.gap fields.line fields.word fields.kind) }
{
    let mut cursor = Cursor { out, at };
    cursor.put(Some([fields.map()]));
    cursor.put(fields.gap);
    cursor.put(fields.line);
    cursor.put(fields.word);
    cursor.put(fields.kind);
    cursor.at
}

// Writes a record at a place of the buffer, after one of the line `before`, and answers the next free place.
// A refusal writes nothing. What was written reads back as that record, and records written one after another
// read back as a trace.
#[tactic(auto, using(crate::proofs::Laid::one_le_encode, crate::proofs::Traces::record_reads_back, crate::proofs::Traces::written_reads_back))]
pub fn write_record(out: &mut [u8], at: usize, before: u8, draft: Draft) -> Result<usize, Refusal>
    ensures result { result ≡ placed (record_from draft) out.old at before }
    ensures bytes { out.new ≡ filled (record_from draft) out.old at before }
    ensures holds { Holds result (record_from draft) out.new at before }
    ensures trace { OnOk result (ReadsBack) }
{
    let rec = Record::try_from(draft)?;
    let fields = Fields::of(rec, before);
    if out.len().saturating_sub(at) < fields.size() {
        return Err(Reason::NoSpace.at(0));
    }
    Ok(put_record(out, at, fields))
}
