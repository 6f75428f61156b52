// Both areas held against what they have to be, at the end of a call.
use crate::replay::{Awaits, Fault, Replay};
use replay_text::areas::{Areas, USUAL};

// The first place at which two lists differ, as far as both go.
pub fn first_difference<T: PartialEq>(a: &[T], b: &[T]) -> Option<usize> {
    a.iter().zip(b).position(|(x, y)| *x != *y)
}

// The next call is lent areas of the usual lengths: what a finished call left, or else what the stream had.
pub fn settle(areas: &mut Areas, replay: Replay, finished: bool) -> Result<Replay, Fault> {
    if let Some(place) = first_difference(&areas.lent, &areas.left) {
        return Err(Fault::StateArea(place));
    }
    if let Some(place) = first_difference(&areas.commands, &areas.commands_left) {
        return Err(Fault::CommandArea(place));
    }
    if finished {
        areas.keep();
    } else {
        areas.restore();
    }
    Ok(Replay {
        awaits: Awaits::Call,
        long: USUAL,
        wide: USUAL,
        ..replay
    })
}
