// The parts of a finished step's writing.
//
// The image is written, so the count of its stalled peers stands beside it.
ghost use Rattle.std.specs.Prelude.{◌≡◌, List, ℕ, ◌+◌, ◌≤◌, length, take, drop};
ghost use Rattle.peers.specs.Peers.{listed_peer};
ghost use Rattle.commands.specs.Sent.{sent_at, behind};
ghost use Rattle.step.specs.Stalling.{places_of, stalled_then, stalled_count_then};
ghost use Rattle.step.specs.Finished.{said, counted, completed};
ghost use Rattle.model.specs.Layout.{area_size, command_header};

use commands::kind::SYNC_INFO;
use commands::place::Place;
use image::head::Head;
use model::layout::{REGION_AT, STALLED_AT};
use plan::Stalling;
use work::Counts;

// A sync info, if one goes out: a command without ids. Answers where it ends.
pub fn say(out: &mut [u8], says: Option<u64>, place: Place) -> usize
    requires { place.at + command_header ≤ length out.old }
    ensures out_after { out.new ≡ sent_at place (said (listed_peer says)) out.old }
    ensures value { result ≡ (behind place (said (listed_peer says))).at }
{
    let Some(peer) = says else {
        return place.at;
    };
    commands::writing::put_command(out, place, SYNC_INFO, 0, peer, b"", 0)
}

// The image after a step, its region being worked on already: stalled places, and the header with the counts.
pub fn complete(image: &mut [u8], count: usize, stalling: Stalling, head: Head, counts: Counts)
    requires { (length image.old ≡ area_size) × (stalled_count_then stalling count ≤ 256) }
    ensures { (peers : List ℕ) → length peers ≡ count → take 2048 (drop 512 image.old) ≡ places_of peers → image.new ≡ completed (counted head counts.pending counts.evicted) (places_of (stalled_then stalling peers)) image.old }
{
    crate::stalling::stall(&mut image[STALLED_AT..REGION_AT], count, stalling);
    let mut after = head;
    after.pending = counts.pending;
    after.evicted = counts.evicted;
    image::writing::write_head(image, after);
}
