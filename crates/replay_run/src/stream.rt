// The lines of a stream that ask for a call: where one may stand, and the call made.
use replay_expect::made::made;
use replay_expect::replay::{Awaits, Fault, Replay};
use replay_text::areas::Areas;
use replay_text::line_words::{AreaCall, Call, MapCall};
use replay_text::words::Words;

// A call of the map.
fn map_call(
    areas: &mut Areas,
    call: MapCall,
    words: &Words,
    replay: Replay,
) -> Result<[u64; 9], Fault> {
    if areas.map.len() < replay.map {
        return Err(Fault::Form);
    }
    Ok(crate::mapping::make(areas, call, replay.map, words))
}

// `open`, `step`, `ask` or `age`.
fn area_call(
    areas: &mut Areas,
    call: AreaCall,
    words: &Words,
    replay: Replay,
) -> Result<[u64; 9], Fault> {
    let long = replay.long;
    let wide = replay.wide;
    if (areas.lent.len() < long) | (areas.commands.len() < wide) {
        return Err(Fault::Form);
    }
    Ok(crate::calling::make(areas, call, long, wide, words))
}

// A line that asks for a call, its words read into the room of those before.
pub fn take_call(
    areas: &mut Areas,
    words: &mut Words,
    call: Call,
    line: &[u8],
    replay: Replay,
) -> Result<Replay, Fault> {
    words.read_line(line, call.shape()).ok_or(Fault::Form)?;
    replay.expects(Awaits::Call)?;
    let answer = match call {
        Call::Area(call) => area_call(areas, call, words, replay)?,
        Call::Map(call) => map_call(areas, call, words, replay)?,
    };
    Ok(made(areas, call, words, answer, replay))
}
