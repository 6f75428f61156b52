// handle_event (rule 7): a message by its kind.
//
// A kind is any byte here: any other than the two is a message that does nothing.
ghost use Rattle.std.specs.Prelude.{◌≡◌, ◌≤◌, ◌<◌};
ghost use Rattle.model.specs.State.{State};
ghost use Rattle.model.specs.Calls as calls;
ghost use Rattle.image.specs.Heads.{head_of};
ghost use Rattle.plan.specs.Plans.{numbers_of, Shows, Follows};

use image::head::Head;
use plan::kind::{ANNOUNCED, SYNC_INFO};
use plan::shown::Shown;
use plan::{Call, Plan, Work};

// Announced ids, sync infos, and other messages, which do nothing.
pub fn handle_event(head: Head, call: Call, ids: &[u8], shown: Shown) -> Plan
    ensures { (st : State) (c : calls.Call) → head_of st ≡ head → numbers_of c ≡ call → c.ids ≡ ids.now → Shows c shown.entry → 5 ≤ c.kind → c.kind < 8 → Follows st c result }
{
    match call.kind {
        ANNOUNCED => plan_messages::messages::hears_announced(head, call, ids, shown),
        SYNC_INFO => plan_messages::messages::hears_sync_info(head, call, shown),
        _ => plan::continuing::continues(head, call.clock, Work::Nothing),
    }
}
