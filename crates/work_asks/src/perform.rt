// A plan's work on the region of an image, whichever it is.
//
// The works without a peer to ask stand in the crate work, those with one in ids, orphans, fresh and sections. Where there is
// no room, the answer is Full, and what stands in the region then is of no use.
//
// The region and the room are written, and what is read stands beside them: what is asked of them is `Tracked` and `HasRoom`.
ghost use Rattle.std.specs.Prelude.{length};
ghost use Rattle.model.specs.State.{State};
ghost use Rattle.model.specs.Calls as calls;
ghost use Rattle.work.specs.Worked.{Tracked, HasRoom, Given, Performs, Untouched, worked_by};
ghost use Rattle.work_asks.specs.Room.{most_sent};

use commands::place::Place;
use commands::tracker::TrackerError;
use image::head::Head;
use lists::ids::Ids;
use lists::pairs::Pairs;
use lists::view::View;
use plan::{Call, Work};
use work::Counts;

// Any work.
pub fn perform(
    region: &mut [u8],
    head: Head,
    call: Call,
    work: Work,
    downloaded: u32,
    ids: Ids,
    stored: Pairs,
    view: View,
    out: &mut [u8],
    place: Place,
) -> Result<Counts, TrackerError>
    requires tracked { Tracked head region.old }
    requires room { HasRoom place (most_sent head (length ids.bytes.now) work) out.old }
    ensures performs { (st : State) (c : calls.Call) → Given head region.old call ids.entry.bytes.now stored.entry.bytes.now view.entry.bytes.now st c → Performs place (worked_by st c downloaded work) out.old result region.new out.new }
    ensures untouched { Untouched work result region.old region.new out.old out.new }
{
    match work {
        Work::Nothing => work::nothing(head, place),
        Work::Ids(peer) => crate::ids::ids(region, head, call, peer, ids, stored, out, place),
        Work::Sections(peer) => crate::sections::sections(
            region, head, call, peer, downloaded, view, out, place,
        ),
        Work::Received => work::removals::received(region, head, ids, place),
        Work::Evicted => work::removals::evicted(region, head, ids, place),
        Work::Purge => work::removals::purge(region, head, place),
        Work::PurgeSections(peer) => crate::sections::purge_sections(
            region, head, call, peer, downloaded, view, out, place,
        ),
        Work::Lose => work::removals::lose(region, head, place),
        Work::LoseAsk(peer) => crate::orphans::lose_ask(
            region, head, call, peer, stored, out, place,
        ),
        Work::Check(aim) => work::region_check::check(region, head, call, aim, out, place),
        Work::CheckFresh(peer, aim) => crate::fresh::check_fresh(
            region, head, call, peer, aim, stored, out, place,
        ),
    }
}
