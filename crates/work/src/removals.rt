// The works that take requests out of the region and ask nobody: received, evicted, purge, lose, by delivery.rs.
//
// Each function is the work of its name (plan::Work).
//
// The region is written, and header and numbers are read beside it: what is asked of them is `Tracked`.
ghost use Rattle.std.specs.Prelude.{◌≡◌, ℕ, List, Err};
ghost use Rattle.model.specs.State.{State};
ghost use Rattle.model.specs.Calls as calls;
ghost use Rattle.work.specs.Worked.{Tracked, Given, Performs, worked_by};
ghost use Rattle.plan.specs.declared.Call.{Call};
ghost use Rattle.plan.specs.declared.Work.TheVariants as works;
ghost use Rattle.commands.specs.declared.tracker.TrackerError.TheVariants.{Full};

use crate::Counts;
use commands::place::Place;
use commands::tracker::TrackerError;
use image::head::Head;
use lists::ids::Ids;
use model::layout::ID_SIZE;

// Received ids leave pending.
pub fn received(
    region: &mut [u8],
    head: Head,
    ids: Ids,
    place: Place,
) -> Result<Counts, TrackerError>
    requires { Tracked head region.old }
    ensures { (st : State) (c : calls.Call) (stored view out : List ℕ) (call : Call) → Given head region.old call ids.entry.bytes.now stored view st c → (downloaded : ℕ) → Performs place (worked_by st c downloaded works.Received) out result region.new out }
{
    let count = head.pending;
    let left = delivery::received::mark_received(region, count, ids.bytes);
    Ok(Counts::unasked(left, head.evicted, place))
}

// Evicted ids leave pending and join the evicted list.
pub fn evicted(
    region: &mut [u8],
    head: Head,
    ids: Ids,
    place: Place,
) -> Result<Counts, TrackerError>
    requires { Tracked head region.old }
    ensures performs { (st : State) (c : calls.Call) (stored view out : List ℕ) (call : Call) → Given head region.old call ids.entry.bytes.now stored view st c → (downloaded : ℕ) → Performs place (worked_by st c downloaded works.Evicted) out result region.new out }
    ensures region_unchanged { result ≡ Err Full → region.new ≡ region.old }
{
    let gone = head.evicted;
    let stay = delivery::evict::schedule_rerequest(region, head.pending, gone, ids)?;
    Ok(Counts::unasked(stay, gone + ids.bytes.len() / ID_SIZE, place))
}

// A reorg: all requests are dropped, the evicted list stays.
pub fn purge(region: &mut [u8], head: Head, place: Place) -> Result<Counts, TrackerError>
    requires { Tracked head region.old }
    ensures { (st : State) (c : calls.Call) (ids stored view out : List ℕ) (call : Call) → Given head region.old call ids stored view st c → (downloaded : ℕ) → Performs place (worked_by st c downloaded works.Purge) out result region.new out }
{
    delivery::purge::purge_all(region, head.pending);
    Ok(Counts::unasked(0, head.evicted, place))
}

// The sync peer is lost: its requests are dropped.
pub fn lose(region: &mut [u8], head: Head, place: Place) -> Result<Counts, TrackerError>
    requires { Tracked head region.old }
    ensures { (st : State) (c : calls.Call) (ids stored view out : List ℕ) (call : Call) → Given head region.old call ids stored view st c → (downloaded : ℕ) → Performs place (worked_by st c downloaded works.Lose) out result region.new out }
{
    let others = delivery::purge::purge_peer(region, head.pending, head.peer);
    Ok(Counts::unasked(others, head.evicted, place))
}
