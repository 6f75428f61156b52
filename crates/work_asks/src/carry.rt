// A plan carried out on the region of an image and on room for commands, up to its sync info.
//
// It costs the announcement's bytes and the work.
//
// Region and room are written: what is asked of them is `Tracked` and `HasRoom`.
ghost use Rattle.std.specs.Prelude.{◌≡◌, true, ◌+◌, ◌≤◌, length, None};
ghost use Rattle.model.specs.State.{State};
ghost use Rattle.model.specs.Lists.{ids_in, continuation_fits};
ghost use Rattle.model.specs.Calls as calls;
ghost use Rattle.peers.specs.Peers.{listed_peer};
ghost use Rattle.commands.specs.Sent.{first_place, sent_at, behind};
ghost use Rattle.work.specs.Worked.{Tracked, Given, Performs, Untouched};
ghost use Rattle.work_asks.specs.Carried.{announced, carried_by};
ghost use Rattle.work_asks.specs.Room.{room_for, most_carried};
ghost use Rattle.model.specs.Layout.{most_bytes};

use commands::kind::ANNOUNCE;
use commands::place::Place;
use commands::tracker::TrackerError;
use image::head::Head;
use lists::ids::Ids;
use lists::pairs::Pairs;
use lists::view::View;
use model::HEADER_TYPE_ID;
use plan::{Call, Plan};
use work::Counts;

// Continuation ids, if any, are announced before any reply.
fn announce(out: &mut [u8], announces: Option<u64>, continuation: &[u8]) -> Place
    requires { (continuation_fits continuation.now ≡ true) × (room_for announces 0 ≤ length out.old) }
    ensures out_after { out.new ≡ sent_at first_place (announced (listed_peer announces) (ids_in continuation.now)) out.old }
    ensures value { result ≡ behind first_place (announced (listed_peer announces) (ids_in continuation.now)) }
    ensures most_bytes_bound { (result.at + most_bytes ≤ 65536) × (result.batch ≤ 1) }
{
    let first = Place { at: 0, batch: 0 };
    let Some(peer) = announces else {
        return first;
    };
    if continuation.len() < 1 {
        return first;
    }
    let count = commands::counting::count_ids(continuation);
    let at = commands::writing::put_command(
        out,
        first,
        ANNOUNCE,
        HEADER_TYPE_ID,
        peer,
        continuation,
        count,
    );
    Place { at, batch: 1 }
}

// Announcement, then work.
pub fn carry_out(
    region: &mut [u8],
    out: &mut [u8],
    head: Head,
    plan: Plan,
    call: Call,
    ids: Ids,
    continuation: &[u8],
    stored: Pairs,
    view: View,
) -> Result<Counts, TrackerError>
    requires tracked { Tracked head region.old }
    requires continuation_fit { continuation_fits continuation.now ≡ true }
    requires room { most_carried head (length ids.bytes.now) plan ≤ length out.old }
    ensures performs { (st : State) (c : calls.Call) → Given head region.old call ids.entry.bytes.now stored.entry.bytes.now view.entry.bytes.now st c → c.continuation ≡ continuation.now → Performs first_place (carried_by st c plan) out.old result region.new out.new }
    ensures untouched { plan.announces ≡ None → Untouched plan.work result region.old region.new out.old out.new }
{
    let place = announce(out, plan.announces, continuation);
    crate::perform::perform(
        region,
        head,
        call,
        plan.work,
        plan.head.downloaded,
        ids,
        stored,
        view,
        out,
        place,
    )
}
