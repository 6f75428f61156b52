// What the lines of a stream say of its calls, held against what the calls came to.
//
// Every byte of both areas is compared: a refused call's with those lent, a finished one's with the state and the commands
// of the list. These functions are proved to be safe and to end; that they compare rightly is shown by lists that say
// something else (crate cases).
use crate::replay::{Fault, Replay};
use crate::{answer, given, left, maps};
use replay_text::areas::Areas;
use replay_text::line_words::Head;
use replay_text::words::Words;

// A line of a stream that asks for no call, its words read into the room of those before.
pub fn take_with(
    areas: &mut Areas,
    words: &mut Words,
    head: Head,
    line: &[u8],
    replay: Replay,
) -> Result<Replay, Fault> {
    words
        .read_line(line, head.shape(replay.made))
        .ok_or(Fault::Form)?;
    match head {
        Head::Stream | Head::Call(_) => Err(Fault::Form),
        Head::Put => given::put(areas, words, replay),
        Head::Poke => given::poke(areas, words, replay),
        Head::Areas => Ok(given::lengths(words, replay)),
        Head::Map => maps::put(areas, words, replay),
        Head::Answer => answer::answered(areas, words, replay),
        Head::Command => left::command(areas, words, replay),
        Head::State => left::state(areas, words, replay),
        Head::Pairs => left::pairs(areas, words, replay),
        Head::LeftMap => maps::left(areas, words, replay),
    }
}

// The same of one line alone.
pub fn take(areas: &mut Areas, head: Head, line: &[u8], replay: Replay) -> Result<Replay, Fault> {
    take_with(areas, &mut Words::none(), head, line, replay)
}
