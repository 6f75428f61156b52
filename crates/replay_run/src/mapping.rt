// The calls of the map that a line asks for.
ghost use Rattle.std.specs.Prelude.{◌≤◌};

use replay_text::areas::Areas;
use replay_text::line_words::MapCall;
use replay_text::numbers::{byte, half};
use replay_text::words::Words;

// A call of the map answers its number, and `passable` heights too. The view stands last.
fn run(map: &mut [u8], call: MapCall, words: &Words) -> [u64; 9] {
    let [.., view] = words.lists();
    let height = half(words.numbers[0]);
    let place = byte(words.numbers[1]);
    let number = match call {
        MapCall::Fill => {
            let chain = half(words.numbers[1]);
            request_keeper::map::request_keeper_map_fill(map, height, chain, view)
        }
        MapCall::Arrived => request_keeper::map::request_keeper_map_arrived(map, height, place),
        MapCall::Pruned => request_keeper::map::request_keeper_map_pruned(map, height, place),
        MapCall::Slide => request_keeper::map::request_keeper_map_slide(map, height, view),
        MapCall::Passable => {
            let answer = request_keeper::map::request_keeper_map_passable(map);
            let number = u64::from(answer.number);
            let heights = u64::from(answer.heights);
            return [number, heights, 0, 0, 0, 0, 0, 0, 0];
        }
    };
    [u64::from(number), 0, 0, 0, 0, 0, 0, 0, 0]
}

// Makes the call that a line asks for, on the stream's map of this length.
pub fn make(areas: &mut Areas, call: MapCall, long: usize, words: &Words) -> [u64; 9]
    requires { long ≤ 4096 }
{
    areas.map_left.copy_from_slice(&areas.map);
    run(&mut areas.map_left[..long], call, words)
}
