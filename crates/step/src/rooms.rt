// The room for commands that a step asks for.
//
// A forecast has no command area to write to and clears room of its own; most steps send little, and ask for little.
ghost use Rattle.std.specs.Prelude.{◌≡◌, ◌+◌, ◌≤◌};
ghost use Rattle.model.specs.Layout.{id_list_size};
ghost use Rattle.model.specs.Protocol.{tracked_limit};
ghost use Rattle.work_asks.specs.Room.{most_sent};
ghost use Rattle.step.specs.Rooms.{room_of};

use image::head::Head;
use model::layout::{AREA_SIZE, COMMAND_HEADER, COMMAND_SIZE, ID_SIZE, MOST_BYTES};
use plan::Work;

// What a work can send at most. `ids` is the length of the ids lent.
fn most_sent(head: Head, ids: usize, work: Work) -> usize
    requires { (head.pending + head.evicted ≤ tracked_limit) × (ids ≤ id_list_size) }
    ensures { result ≡ most_sent head ids work }
{
    match work {
        Work::Nothing => 0,
        Work::Ids(_) => ids / ID_SIZE * COMMAND_SIZE,
        Work::Sections(_) => MOST_BYTES,
        Work::Received => 0,
        Work::Evicted => 0,
        Work::Purge => 0,
        Work::PurgeSections(_) => MOST_BYTES,
        Work::Lose => 0,
        Work::LoseAsk(_) => MOST_BYTES,
        Work::Check(_) => head.pending * COMMAND_SIZE,
        Work::CheckFresh(_, _) => (head.pending + head.evicted) * COMMAND_SIZE,
    }
}

// The same with a sync info behind it; where continuation ids are announced before it, a whole area.
pub fn room_of(head: Head, ids: usize, work: Work, announces: Option<u64>) -> usize
    requires { (head.pending + head.evicted ≤ tracked_limit) × (ids ≤ id_list_size) }
    ensures { result ≡ room_of head ids work announces }
{
    match announces {
        Some(_) => AREA_SIZE,
        None => most_sent(head, ids, work) + COMMAND_HEADER,
    }
}
