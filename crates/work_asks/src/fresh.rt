// The work of a check that asks a peer for the evicted ids (plan::Work::CheckFresh), on the region of an image.
//
// Region and room are written: what is asked of them is `Tracked` and `HasRoom`. Ids as many as there may be: there is no heap.
ghost use Rattle.std.specs.Prelude.{List, ℕ, ◌+◌, ◌*◌};
ghost use Rattle.model.specs.State.{State};
ghost use Rattle.model.specs.Calls as calls;
ghost use Rattle.plan.specs.declared.Work.TheVariants as works;
ghost use Rattle.work.specs.Worked.{Tracked, HasRoom, Given, Performs, worked_by};
ghost use Rattle.model.specs.Layout.{command_size};

use commands::place::Place;
use commands::tracker::TrackerError;
use image::head::Head;
use lists::pairs::Pairs;
use model::HEADER_TYPE_ID;
use model::layout::{ID_LIST_SIZE, ID_SIZE};
use peers::aim::Aim;
use plan::Call;
use work::Counts;

// A check; then the evicted ids, copied before it clears them, go out as headers. Mostly there are none, and it is a plain check.
pub fn check_fresh(
    region: &mut [u8],
    head: Head,
    call: Call,
    peer: u64,
    aim: Aim,
    stored: Pairs,
    out: &mut [u8],
    place: Place,
) -> Result<Counts, TrackerError>
    requires tracked { Tracked head region.old }
    requires room { HasRoom place ((head.pending + head.evicted) * command_size) out.old }
    ensures { (st : State) (c : calls.Call) (ids view : List ℕ) → Given head region.old call ids stored.entry.bytes.now view st c → (downloaded : ℕ) → Performs place (worked_by st c downloaded (works.CheckFresh peer aim)) out.old result region.new out.new }
{
    if head.evicted == 0 {
        return work::region_check::check(region, head, call, aim, out, place);
    }
    let mut fresh = [0u8; ID_LIST_SIZE];
    let size = head.evicted * ID_SIZE;
    let from = region.len() - size;
    spans::moving::overwrite(&mut fresh, 0, &region[from..]);
    let before = work::region_check::check_region(region, head, call, aim, out, place);
    crate::asks::ask_list(
        region,
        before,
        call,
        HEADER_TYPE_ID,
        peer,
        stored,
        &fresh[..size],
        out,
    )
}
