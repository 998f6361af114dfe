// The states of a line, the messages on the bus, and the events that a line meets.
ghost use Rattle.std.specs.Prelude.{◌≡◌, Some};
ghost use Rattle.coherence.specs.Roles.{message_of};
ghost use Rattle.coherence.specs.States.{state_name};

use LineState::*;
use model::Kind;
use std::fmt;

// How a core has a line: I not at all, S as a copy that others may have too, M as the only one, which alone may be stored
// to. A transient state is named by the state that the line left and the one it is to reach; then `a` while the core's own
// message is unsent, `d` while data is outstanding; then what the line falls to afterwards, because of messages of other
// cores that went out behind its own.
#[derive(Clone, Copy, PartialEq, Eq, Debug)]
pub enum LineState {
    I,
    S,
    M,
    ISad,
    ISd,
    IMad,
    IMd,
    IMdS,
    SMad,
    SMd,
    SMdS,
    ISdI,
    IMdI,
    IMdSI,
    SMdI,
    SMdSI,
    MIa,
    IIa,
}

// What a core tells all cores of a line: GetS, that it wants to read it; GetM, to store to it; PutM, that it gives it up.
#[derive(Clone, Copy, PartialEq, Eq, Debug)]
pub enum Message {
    GetS,
    GetM,
    PutM,
}

// What can happen to a line in a core's cache: an access of the core, a message of its own that goes out, one of another
// core, or the arrival of data.
#[derive(Clone, Copy, PartialEq, Eq, Debug)]
pub enum Event {
    Access(Kind),
    Own(Message),
    Other(Message),
    Data,
}

impl fmt::Display for LineState {
    ghost output = { λ s. Some (state_name s) };

    fn fmt<W: fmt::Write>(&self, f: &mut fmt::Formatter<W>) -> fmt::Result {
        f.write_str(match self {
            I => "I",
            S => "S",
            M => "M",
            ISad => "ISad",
            ISd => "ISd",
            IMad => "IMad",
            IMd => "IMd",
            IMdS => "IMdS",
            SMad => "SMad",
            SMd => "SMd",
            SMdS => "SMdS",
            ISdI => "ISdI",
            IMdI => "IMdI",
            IMdSI => "IMdSI",
            SMdI => "SMdI",
            SMdSI => "SMdSI",
            MIa => "MIa",
            IIa => "IIa",
        })
    }
}

// The message of an access that waits.
impl From<Kind> for Message {
    ghost from_gives = { λ kind message. message ≡ message_of kind };

    fn from(kind: Kind) -> Message {
        match kind {
            Kind::Load => Message::GetS,
            Kind::Store => Message::GetM,
            Kind::Replace => Message::PutM,
        }
    }
}
