// The table of a line's moves, 18 states by ten events.
ghost use Rattle.std.specs.Prelude.{◌≡◌};
ghost use Rattle.coherence.specs.Laws.{ProtocolLaws};
ghost use Rattle.coherence.specs.Moves.{next};
ghost use Rattle.coherence.specs.States.{state_number, event_number};
ghost use Rattle.coherence.specs.Table.{whole_table};

use crate::states::Event::*;
use crate::states::LineState::*;
use crate::states::Message::*;
use crate::states::{Event, LineState};
use model::Kind::*;

// No line in this state ever meets this event.
const NEVER: Option<LineState> = None;

// The next state, or never: ten entries to a state, for the core's load, store and replace, its own GetS, GetM and PutM,
// another core's GetS, GetM and PutM, and data.
// Stays one array of 180: a form that the project fixes.
#[rattlefmt::skip]
pub const TABLE: [Option<LineState>; 180] = [
    Some(ISad),  Some(IMad),  NEVER,       NEVER,       NEVER,       NEVER,       Some(I),     Some(I),     Some(I),     NEVER,   // I
    Some(S),     Some(SMad),  Some(I),     NEVER,       NEVER,       NEVER,       Some(S),     Some(I),     Some(S),     NEVER,   // S
    Some(M),     Some(M),     Some(MIa),   NEVER,       NEVER,       NEVER,       Some(S),     Some(I),     Some(M),     NEVER,   // M
    NEVER,       NEVER,       NEVER,       Some(ISd),   NEVER,       NEVER,       Some(ISad),  Some(ISad),  Some(ISad),  NEVER,   // ISad
    NEVER,       NEVER,       NEVER,       NEVER,       NEVER,       NEVER,       Some(ISd),   Some(ISdI),  Some(ISd),   Some(S), // ISd
    NEVER,       NEVER,       NEVER,       NEVER,       Some(IMd),   NEVER,       Some(IMad),  Some(IMad),  Some(IMad),  NEVER,   // IMad
    NEVER,       NEVER,       NEVER,       NEVER,       NEVER,       NEVER,       Some(IMdS),  Some(IMdI),  Some(IMd),   Some(M), // IMd
    NEVER,       NEVER,       NEVER,       NEVER,       NEVER,       NEVER,       Some(IMdS),  Some(IMdSI), Some(IMdS),  Some(S), // IMdS
    NEVER,       NEVER,       NEVER,       NEVER,       Some(SMd),   NEVER,       Some(SMad),  Some(IMad),  Some(SMad),  NEVER,   // SMad
    NEVER,       NEVER,       NEVER,       NEVER,       NEVER,       NEVER,       Some(SMdS),  Some(SMdI),  Some(SMd),   Some(M), // SMd
    NEVER,       NEVER,       NEVER,       NEVER,       NEVER,       NEVER,       Some(SMdS),  Some(SMdSI), Some(SMdS),  Some(S), // SMdS
    NEVER,       NEVER,       NEVER,       NEVER,       NEVER,       NEVER,       Some(ISdI),  Some(ISdI),  Some(ISdI),  Some(I), // ISdI
    NEVER,       NEVER,       NEVER,       NEVER,       NEVER,       NEVER,       Some(IMdI),  Some(IMdI),  Some(IMdI),  Some(I), // IMdI
    NEVER,       NEVER,       NEVER,       NEVER,       NEVER,       NEVER,       Some(IMdSI), Some(IMdSI), Some(IMdSI), Some(I), // IMdSI
    NEVER,       NEVER,       NEVER,       NEVER,       NEVER,       NEVER,       Some(SMdI),  Some(SMdI),  Some(SMdI),  Some(I), // SMdI
    NEVER,       NEVER,       NEVER,       NEVER,       NEVER,       NEVER,       Some(SMdSI), Some(SMdSI), Some(SMdSI), Some(I), // SMdSI
    NEVER,       NEVER,       NEVER,       NEVER,       NEVER,       Some(I),     Some(IIa),   Some(IIa),   Some(MIa),   NEVER,   // MIa
    NEVER,       NEVER,       NEVER,       NEVER,       NEVER,       Some(I),     Some(IIa),   Some(IIa),   Some(IIa),   NEVER,   // IIa
];

// The row of a state.
fn row(state: LineState) -> usize
    ensures { result ≡ state_number state }
{
    // Stays `as`: it reads the discriminant.
    state as usize
}

// The column of an event.
fn column(event: Event) -> usize
    ensures { result ≡ event_number event }
{
    match event {
        Access(kind) => usize::from(u8::from(kind)),
        // Stays `as`: it reads the discriminant.
        Own(message) => 3 + message as usize,
        Other(message) => 6 + message as usize,
        Data => 9,
    }
}

// The whole table. It is the one that the controller keeps to, and the laws of the protocol hold of it.
#[tactic(auto, using(crate::proofs::Laws::protocol_laws))]
pub fn whole_table() -> [Option<LineState>; 180]
    ensures table { result ≡ whole_table }
    ensures laws { ProtocolLaws }
{
    TABLE
}

// One entry of the table.
#[tactic(auto, using(crate::proofs::Laws::looked_up))]
pub fn entry(state: LineState, event: Event) -> Option<LineState>
    ensures { result ≡ next state event }
{
    TABLE[row(state) * 10 + column(event)]
}
