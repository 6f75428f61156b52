// The lines of a stream that speak of the map of the window.
use crate::replay::{Awaits, Fault, Replay};
use crate::settle::first_difference;
use replay_text::areas::Areas;
use replay_text::line_words::MapCall;
use replay_text::words::Words;

// The map held against what it has to be, at the end of a call.
fn settle(areas: &Areas, replay: Replay) -> Result<Replay, Fault> {
    if let Some(place) = first_difference(&areas.map, &areas.map_left) {
        return Err(Fault::MapArea(place));
    }
    Ok(Replay {
        awaits: Awaits::Call,
        ..replay
    })
}

// `=`, of a call of the map whose numbers are as said. A refused one and `passable` have to leave it as it was.
pub fn answered(areas: &Areas, call: MapCall, replay: Replay) -> Result<Replay, Fault> {
    if (replay.answer[0] != 0) | (call == MapCall::Passable) {
        return settle(areas, replay);
    }
    Ok(Replay {
        awaits: Awaits::Map,
        ..replay
    })
}

// `map`: the stream's map from now on.
pub fn put(areas: &mut Areas, words: &Words, replay: Replay) -> Result<Replay, Fault> {
    replay.expects(Awaits::Call)?;
    let [.., map] = words.lists();
    if areas.map.len() < map.len() {
        return Err(Fault::Form);
    }
    areas.map[..map.len()].copy_from_slice(map);
    Ok(Replay {
        map: map.len(),
        ..replay
    })
}

// `%`, behind the answer of a finished call of the map: all its bytes.
pub fn left(areas: &mut Areas, words: &Words, replay: Replay) -> Result<Replay, Fault> {
    replay.expects(Awaits::Map)?;
    let [.., map] = words.lists();
    if (areas.map.len() < map.len()) | (map.len() != replay.map) {
        return Err(Fault::Form);
    }
    areas.map[..map.len()].copy_from_slice(map);
    settle(areas, replay)
}
