// The work that asks another peer for what a lost one was asked for (plan::Work::LoseAsk), on the region of an
// image.
//
// Region and room are written: what is asked of them is `Tracked` and `HasRoom`. Pairs as many as there may be: there is no
// heap.
ghost use Rattle.std.specs.Prelude.{List, ℕ};
ghost use Rattle.model.specs.State.{State};
ghost use Rattle.model.specs.Calls as calls;
ghost use Rattle.plan.specs.declared.Work.TheVariants as works;
ghost use Rattle.work.specs.Worked.{Tracked, HasRoom, Given, Performs, worked_by};
ghost use Rattle.model.specs.Layout.{most_bytes};

use commands::place::Place;
use commands::tracker::TrackerError;
use image::head::Head;
use lists::pairs::Pairs;
use model::layout::{PAIR_LIST_SIZE, PAIR_SIZE};
use plan::Call;
use work::Counts;

// The sync peer is lost, and what it was asked for, gathered before it leaves the table, is asked of another.
pub fn lose_ask(
    region: &mut [u8],
    head: Head,
    call: Call,
    peer: u64,
    stored: Pairs,
    out: &mut [u8],
    place: Place,
) -> Result<Counts, TrackerError>
    requires tracked { Tracked head region.old }
    requires room { HasRoom place most_bytes out.old }
    ensures { (st : State) (c : calls.Call) (ids view : List ℕ) → Given head region.old call ids stored.entry.bytes.now view st c → (downloaded : ℕ) → Performs place (worked_by st c downloaded (works.LoseAsk peer)) out.old result region.new out.new }
{
    let mut pairs = [0u8; PAIR_LIST_SIZE];
    let number = delivery::orphans::orphans(region, head.pending, head.peer, &mut pairs);
    let left = delivery::purge::purge_peer(region, head.pending, head.peer);
    let before = Counts::unasked(left, head.evicted, place);
    let size = number * PAIR_SIZE;
    crate::asks::ask_pairs(region, before, call, peer, stored, &pairs[..size], out)
}
