// The records of all lines in all cores.
ghost use Rattle.std.specs.Prelude.{◌≡◌, replicate};
ghost use Rattle.coherence.specs.declared.states.Event.TheVariants.{Data};
ghost use Rattle.coherence.specs.Moves.{next};
ghost use Rattle.coherence.specs.Places.{AllHear, OthersStay, blank, place_of, record_at, moved_at, received_at, with_word_at, heard_as, broadcast};

use crate::controller::LineRecord;
use crate::states::{Event, LineState, Message};
use model::{Core, Line};

// A record for each of 64 lines in each of 8 cores: the lines of core 0 first.
// Stays one array of 512: a form that the project fixes.
#[derive(Drop)]
pub struct Places {
    records: [LineRecord; 512],
}

// Where a core's record of a line stands.
// Stays with two parameters, as do its callers: nobody keeps a core and a line as a pair.
fn place(core: Core, line: Line) -> usize
    ensures { result ≡ place_of core.number line.number }
{
    usize::from(core.number) * 64 + usize::from(line.number)
}

// As what a core hears the sender's message.
fn heard_as(sender: Core, message: Message, core: Core) -> Event
    ensures { result ≡ heard_as sender.number message core.number }
{
    if core == sender {
        Event::Own(message)
    } else {
        Event::Other(message)
    }
}

impl Places {
    // No core has any line.
    pub fn new() -> Places
        ensures { result.records ≡ replicate 512 blank }
    {
        Places {
            records: [LineRecord {
                state: LineState::I,
                word: 0,
            }; 512],
        }
    }

    pub fn record(&self, core: Core, line: Line) -> LineRecord
        ensures { result ≡ record_at self.now.records core.number line.number }
    {
        self.records[place(core, line)]
    }

    // A core's line meets an event, and answers its next state; no other record changes. None, and nothing changes, where no
    // line in its state ever meets the event.
    #[tactic(auto, using(crate::proofs::Broadcasts::others_stay))]
    pub fn handle(&mut self, core: Core, line: Line, event: Event) -> Option<LineState>
        ensures next { result ≡ next (record_at self.old.records core.number line.number).state event }
        ensures records { self.new.records ≡ moved_at self.old.records core.number line.number event }
        ensures others { OthersStay core.number line.number self.old.records self.new.records }
    {
        let record = &mut self.records[place(core, line)];
        record.handle(event)
    }

    // Data arrives at a core's line, and its place gets this word; no other record changes. None, and nothing changes,
    // where the line awaits none.
    // Stays beside `handle` and `put`: what is done with the record is no plainer as a parameter.
    #[tactic(auto, using(crate::proofs::Broadcasts::others_stay))]
    pub fn receive(&mut self, core: Core, line: Line, word: u32) -> Option<LineState>
        ensures next { result ≡ next (record_at self.old.records core.number line.number).state Data }
        ensures records { self.new.records ≡ received_at self.old.records core.number line.number word }
        ensures others { OthersStay core.number line.number self.old.records self.new.records }
    {
        let record = &mut self.records[place(core, line)];
        record.receive(word)
    }

    // A core's place of a line gets this word; no other record changes.
    #[tactic(auto, using(crate::proofs::Broadcasts::others_stay))]
    pub fn put(&mut self, core: Core, line: Line, word: u32)
        ensures records { self.new.records ≡ with_word_at self.old.records core.number line.number word }
        ensures others { OthersStay core.number line.number self.old.records self.new.records }
    {
        let record = &mut self.records[place(core, line)];
        record.word = word;
    }

    // A message about a line goes out to all cores: the sender's record of the line meets it as the sender's own, those of
    // the others as another core's, and no other record changes.
    #[tactic(auto, using(crate::proofs::Broadcasts::all_heard))]
    pub fn broadcast(&mut self, sender: Core, line: Line, message: Message)
        ensures records { self.new.records ≡ broadcast sender.number line.number message self.old.records }
        ensures all { AllHear sender.number line.number message self.old.records self.new.records }
    {
        for number in 0..8 {
            let core = Core { number };
            self.handle(core, line, heard_as(sender, message, core));
        }
    }
}
