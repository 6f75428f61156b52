// What a call has to leave in both areas, as its lines say it.
//
// Each table of numbers here is data, offsets and widths, and not what is to be done.
use crate::replay::{Awaits, Fault, Replay};
use crate::settle::settle;
use replay_text::areas::{Areas, USUAL, put_numbers};
use replay_text::words::Words;

// `?`, behind the answer to a question.
pub fn pairs(areas: &mut Areas, words: &Words, replay: Replay) -> Result<Replay, Fault> {
    replay.expects(Awaits::Pairs)?;
    let [.., pairs] = words.lists();
    if areas.commands.len() < pairs.len() {
        return Err(Fault::Form);
    }
    areas.commands[..pairs.len()].copy_from_slice(pairs);
    settle(areas, replay, false)
}

// `.`, behind the answer of a finished call.
pub fn state(areas: &mut Areas, words: &Words, replay: Replay) -> Result<Replay, Fault> {
    replay.expects(Awaits::State)?;
    areas
        .put_state(&words.numbers[..10], words)
        .ok_or(Fault::Form)?;
    settle(areas, replay, true)
}

// `>`, in its order behind a call. Its count has to be that of its ids.
pub fn command(areas: &mut Areas, words: &Words, replay: Replay) -> Result<Replay, Fault> {
    if replay.awaits == Awaits::Call {
        return Err(Fault::Place);
    }
    let [.., ids] = words.lists();
    let at = replay.end;
    if (USUAL < at) | (65000 < ids.len()) {
        return Err(Fault::Form);
    }
    if words.numbers[4] != (ids.len() / 32) as u64 {
        return Err(Fault::Form);
    }
    let table = [(0, 1), (1, 2), (3, 2), (5, 8), (13, 4)];
    put_numbers(&mut areas.commands[at..], &table, &words.numbers[..5]);
    let end = at + 17 + ids.len();
    areas.commands[at + 17..end].copy_from_slice(ids);
    Ok(Replay { end, ..replay })
}
