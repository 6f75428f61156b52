// A call's answer, held against the line that says it.
use crate::replay::{Awaits, Fault, Replay};
use crate::settle::{first_difference, settle};
use replay_text::areas::Areas;
use replay_text::line_words::{AreaCall, Call};
use replay_text::words::Words;

// `=`. A refused call and `age` have to leave both areas as they were lent. Numbers that a call does not answer are 0 in both.
pub fn answered(areas: &mut Areas, words: &Words, replay: Replay) -> Result<Replay, Fault> {
    replay.expects(Awaits::Answer)?;
    if let Some(place) = first_difference(&replay.answer, &words.numbers) {
        return Err(Fault::Number(place));
    }
    match replay.made {
        Call::Map(call) => crate::maps::answered(areas, call, replay),
        Call::Area(AreaCall::Ask) => Ok(Replay {
            awaits: Awaits::Pairs,
            ..replay
        }),
        Call::Area(AreaCall::Age) => settle(areas, replay, false),
        Call::Area(AreaCall::Open | AreaCall::Step) => {
            if replay.answer[0] != 0 {
                return settle(areas, replay, false);
            }
            Ok(Replay {
                awaits: Awaits::State,
                ..replay
            })
        }
    }
}
