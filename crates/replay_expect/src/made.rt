// A call that was made, of which the lines behind it speak.
use crate::replay::{Awaits, Replay};
use replay_text::areas::{Areas, SETTINGS, put_numbers};
use replay_text::line_words::{AreaCall, Call};
use replay_text::words::Words;

// A finished opening has the settings that it was given.
pub fn made(
    areas: &mut Areas,
    call: Call,
    words: &Words,
    answer: [u64; 9],
    replay: Replay,
) -> Replay {
    if (call == Call::Area(AreaCall::Open)) & (answer[0] == 0) {
        put_numbers(&mut areas.lent, &SETTINGS, &words.numbers[2..6]);
    }
    Replay {
        awaits: Awaits::Answer,
        made: call,
        answer,
        end: 0,
        calls: replay.calls.wrapping_add(1),
        ..replay
    }
}
