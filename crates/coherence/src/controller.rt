// The cache controller, for one line of one core.
ghost use Rattle.std.specs.Prelude.{◌≡◌};
ghost use Rattle.coherence.specs.declared.states.Event.TheVariants.{Data};
ghost use Rattle.coherence.specs.Moves.{next};
ghost use Rattle.coherence.specs.Records.{with_state, moved, received};

use crate::states::Event::*;
use crate::states::LineState::*;
use crate::states::Message::*;
use crate::states::{Event, LineState};
use model::Kind::*;

// One core's record of one line: its state, and a place for its word.
#[derive(Clone, Copy, PartialEq, Eq, Debug)]
pub struct LineRecord {
    pub state: LineState,
    pub word: u32,
}

impl LineRecord {
    // Enters a state, and answers it.
    fn enter(&mut self, state: LineState) -> Option<LineState>
        ensures state { result ≡ Some state }
        ensures record { self.new ≡ with_state state self.old }
    {
        self.state = state;
        Some(state)
    }

    // The line meets an event, and answers its next state. None, and nothing changes, where no line in its state ever meets
    // the event.
    // Stays a match on state and event, in place: a form that the project fixes.
    pub fn handle(&mut self, event: Event) -> Option<LineState>
        ensures next { result ≡ next self.old.state event }
        ensures record { self.new ≡ moved event self.old }
    {
        match (self.state, event) {
            // what the core asks: done at once, or the line waits for the core's message to go out
            (I, Access(Load)) => self.enter(ISad),
            (I, Access(Store)) => self.enter(IMad),
            (S, Access(Load)) => self.enter(S),
            (S, Access(Store)) => self.enter(SMad),
            (S, Access(Replace)) => self.enter(I),
            (M, Access(Load | Store)) => self.enter(M),
            (M, Access(Replace)) => self.enter(MIa),

            // the core's message goes out: data is outstanding, or the line is given up
            (ISad, Own(GetS)) => self.enter(ISd),
            (IMad, Own(GetM)) => self.enter(IMd),
            (SMad, Own(GetM)) => self.enter(SMd),
            (MIa | IIa, Own(PutM)) => self.enter(I),

            // another core's GetS takes the line from its owner, who may not have the data yet
            (M, Other(GetS)) => self.enter(S),
            (IMd, Other(GetS)) => self.enter(IMdS),
            (SMd, Other(GetS)) => self.enter(SMdS),
            (MIa, Other(GetS)) => self.enter(IIa),

            // another core's GetM takes it from everyone
            (S | M, Other(GetM)) => self.enter(I),
            (ISd, Other(GetM)) => self.enter(ISdI),
            (IMd, Other(GetM)) => self.enter(IMdI),
            (IMdS, Other(GetM)) => self.enter(IMdSI),
            (SMad, Other(GetM)) => self.enter(IMad),
            (SMd, Other(GetM)) => self.enter(SMdI),
            (SMdS, Other(GetM)) => self.enter(SMdSI),
            (MIa, Other(GetM)) => self.enter(IIa),

            // every other message of another core leaves the line as it is
            (_, Other(_)) => Some(self.state),

            // data arrives
            (ISd | IMdS | SMdS, Data) => self.enter(S),
            (IMd | SMd, Data) => self.enter(M),
            (ISdI | IMdI | IMdSI | SMdI | SMdSI, Data) => self.enter(I),

            _ => None,
        }
    }

    // Data arrives: the line moves, and its place gets this word. None, and nothing changes, where it awaits none.
    pub fn receive(&mut self, word: u32) -> Option<LineState>
        ensures next { result ≡ next self.old.state Data }
        ensures record { self.new ≡ received word self.old }
    {
        let state = self.handle(Data)?;
        self.word = word;
        Some(state)
    }
}
