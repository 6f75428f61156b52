// What the next call is lent, as lines before it say it.
use crate::replay::{Fault, Replay};
use replay_text::areas::{Areas, SETTINGS, USUAL, put_numbers};
use replay_text::words::Words;

// `put`: the stream's area is the image of this state.
pub fn put(areas: &mut Areas, words: &Words, replay: Replay) -> Result<Replay, Fault> {
    areas
        .put_state(&words.numbers[4..14], words)
        .ok_or(Fault::Form)?;
    put_numbers(&mut areas.lent, &SETTINGS, &words.numbers[..4]);
    areas.keep();
    Ok(replay)
}

// `poke`: over the state area of the next call. Behind a call it changes what is expected of it.
pub fn poke(areas: &mut Areas, words: &Words, replay: Replay) -> Result<Replay, Fault> {
    let [.., new] = words.lists();
    let at = words.numbers[0] as usize;
    if USUAL < at {
        return Err(Fault::Form);
    }
    if USUAL - at < new.len() {
        return Err(Fault::Form);
    }
    areas.lent[at..at + new.len()].copy_from_slice(new);
    Ok(replay)
}

// `areas`: the lengths of both.
pub fn lengths(words: &Words, replay: Replay) -> Replay {
    Replay {
        long: words.numbers[0] as usize,
        wide: words.numbers[1] as usize,
        ..replay
    }
}
