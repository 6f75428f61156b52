// Where a stream stands: what its next line has to be, the call that was made, and what may differ.
use replay_text::areas::USUAL;
use replay_text::line_words::{AreaCall, Call};
use std::fmt;

// What the next line has to be.
#[derive(Clone, Copy, PartialEq, Eq)]
pub enum Awaits {
    Call,
    Answer,
    State,
    Pairs,
    Map,
}

// What differs, and where.
#[derive(Clone, Copy)]
pub enum Fault {
    Form,
    Place,
    Number(usize),
    StateArea(usize),
    CommandArea(usize),
    MapArea(usize),
}

impl fmt::Display for Fault {
    fn fmt<W: fmt::Write>(&self, f: &mut fmt::Formatter<W>) -> fmt::Result {
        match *self {
            Fault::Form => write!(f, "is not of the form"),
            Fault::Place => write!(f, "is out of place"),
            Fault::Number(place) => write!(f, "differs in number {place}"),
            Fault::StateArea(place) => write!(f, "differs in the state area, byte {place}"),
            Fault::CommandArea(place) => write!(f, "differs in the command area, byte {place}"),
            Fault::MapArea(place) => write!(f, "differs in the map, byte {place}"),
        }
    }
}

// Where a stream stands.
#[derive(Clone, Copy)]
pub struct Replay {
    pub awaits: Awaits,
    // the call that was made, read only behind one, its numbers, and where its commands end so far
    pub made: Call,
    pub answer: [u64; 9],
    pub end: usize,
    // lengths of the areas of the next call
    pub long: usize,
    pub wide: usize,
    // length of the stream's map
    pub map: usize,
    pub calls: u64,
}

impl Replay {
    // Before the first stream.
    pub fn at_first() -> Replay {
        Replay {
            awaits: Awaits::Call,
            made: Call::Area(AreaCall::Open),
            answer: [0; 9],
            end: 0,
            long: USUAL,
            wide: USUAL,
            map: 512,
            calls: 0,
        }
    }

    // Refuses a line that the stream does not await.
    pub fn expects(self, line: Awaits) -> Result<(), Fault> {
        if self.awaits == line {
            Ok(())
        } else {
            Err(Fault::Place)
        }
    }
}
