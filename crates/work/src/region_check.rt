// The delivery check on the region: requests judged, retries sent, the evicted list emptied.
//
// Region and room are written, and what is read stands beside them: what is asked of them is `Tracked` and `HasRoom`.
ghost use Rattle.std.specs.Prelude.{◌≡◌, List, [], ℕ, ◌-◌, ◌*◌, ◌≤◌, length};
ghost use Rattle.fields.specs.Zero.{zeros};
ghost use Rattle.fields.specs.Overwrite.{overwritten};
ghost use Rattle.model.specs.State.{State};
ghost use Rattle.model.specs.Calls as calls;
ghost use Rattle.peers.specs.Aims.{aimed_at};
ghost use Rattle.commands.specs.Sent.{sent_at};
ghost use Rattle.work.specs.Worked.{region_of, Tracked, HasRoom, Given, Performs, worked_by};
ghost use Rattle.work.specs.Checking.{checked_pending, checked_sendings, checked_counts};
ghost use Rattle.plan.specs.declared.Work.TheVariants as works;
ghost use Rattle.model.specs.Layout.{command_size, id_size};

use crate::Counts;
use commands::place::Place;
use commands::tracker::TrackerError;
use image::head::Head;
use model::layout::{ID_SIZE, TRACKED_LIMIT};
use peers::aim::Aim;
use plan::Call;

// Takes the evicted ids at the region's end away.
fn clear_evicted(region: &mut [u8], evicted: usize)
    requires { evicted * id_size ≤ length region.old }
    ensures { region.new ≡ overwritten (length region.old - evicted * id_size) (zeros (evicted * id_size)) region.old }
{
    let size = evicted * ID_SIZE;
    spans::moving::clear(region, region.len() - size, size);
}

// The check by what it makes of the region's requests.
pub fn check_region(
    region: &mut [u8],
    head: Head,
    call: Call,
    aim: Aim,
    out: &mut [u8],
    place: Place,
) -> Counts
    requires tracked { Tracked head region.old }
    requires room { HasRoom place (head.pending * command_size) out.old }
    ensures value { result ≡ checked_counts head call (aimed_at aim) region.old place }
    ensures region_after { region.new ≡ region_of (checked_pending head call (aimed_at aim) region.old) [] }
    ensures out_after { out.new ≡ sent_at place (checked_sendings head call (aimed_at aim) region.old) out.old }
{
    let gate = call.gate == 1;
    let mut places = [0u16; TRACKED_LIMIT];
    let made = check_timeouts::check::check_timeouts(
        region,
        head.pending,
        head.settings,
        call.clock,
        gate,
        aim,
        &mut places,
    );
    let next = retries::send_retries(region, &mut places[..made.retried], gate, out, place);
    clear_evicted(region, head.evicted);
    Counts {
        pending: made.pending,
        evicted: 0,
        retried: made.retried,
        fresh: head.evicted,
        abandoned: made.abandoned,
        forgotten: made.forgotten,
        place: next,
    }
}

// A check without a peer for fresh ids: they are lost.
pub fn check(
    region: &mut [u8],
    head: Head,
    call: Call,
    aim: Aim,
    out: &mut [u8],
    place: Place,
) -> Result<Counts, TrackerError>
    requires tracked { Tracked head region.old }
    requires room { HasRoom place (head.pending * command_size) out.old }
    ensures { (st : State) (c : calls.Call) (ids stored view : List ℕ) → Given head region.old call ids stored view st c → (downloaded : ℕ) → Performs place (worked_by st c downloaded (works.Check aim)) out.old result region.new out.new }
{
    Ok(check_region(region, head, call, aim, out, place))
}
