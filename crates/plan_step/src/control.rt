// handle_control_event (rule 8): a needed modifier or a reorg.
//
// A kind is any byte here: any other than a needed modifier is a reorg.
ghost use Rattle.std.specs.Prelude.{◌≡◌, ◌≤◌, ◌<◌};
ghost use Rattle.model.specs.State.{State};
ghost use Rattle.model.specs.Calls as calls;
ghost use Rattle.image.specs.Heads.{head_of};
ghost use Rattle.plan.specs.Plans.{numbers_of, Shows, Follows};

use image::head::Head;
use plan::kind::NEEDED_MODIFIER;
use plan::shown::Shown;
use plan::{Call, Plan, Work};

// A needed modifier goes to the sync peer; a reorg purges and runs rules 5 and 4, from the fork point on if that is below.
pub fn handle_control_event(head: Head, call: Call, shown: Shown) -> Plan
    ensures { (st : State) (c : calls.Call) → head_of st ≡ head → numbers_of c ≡ call → Shows c shown.entry → 3 ≤ c.kind → c.kind < 5 → Follows st c result }
{
    match call.kind {
        NEEDED_MODIFIER => plan::continuing::continues(head, call.clock, Work::Ids(head.peer)),
        _ => {
            let from = head.downloaded.min(call.fork);
            plan::next_sections::advances_and_requests(head, call.clock, from, true, shown)
        }
    }
}
