// The plan of a step by its kind (docs/LAYOUT.md, "Step kinds").
ghost use Rattle.std.specs.Prelude.{◌≡◌, map, ◌≤◌, ◌<◌, ◌⊎◌};
ghost use Rattle.fields.specs.Number.{from_be};
ghost use Rattle.fields.specs.Entries.{entries};
ghost use Rattle.model.specs.State.{State};
ghost use Rattle.model.specs.Calls as calls;
ghost use Rattle.image.specs.Heads.{head_of};
ghost use Rattle.plan.specs.Plans.{numbers_of, Shows, Follows};
ghost use Rattle.plan_step.specs.declared.step.Group.TheVariants.{Control, Event, Ids, Timed, Mode};

use image::head::Head;
use peers::stalled_set::StalledPlaces;
use plan::kind::{
    ANNOUNCED, EVICTED, LOST_PEER, NEEDED_MODIFIER, OTHER_MESSAGE, PROGRESS, REORG, SCHEDULED_TICK,
};
use plan::shown::Shown;
use plan::{Call, Plan};

// What plans a kind. A type of its own and not ranges in `plan_step`: which kinds each group has is then said, and proved, in
// one place.
#[derive(Clone, Copy)]
enum Group {
    Control,
    Event,
    Ids,
    Timed,
    Mode,
}

// The kinds of each group, one after another; any other kind goes by mode.
fn group_of(kind: u8) -> Group
    ensures control { result ≡ Control → (3 ≤ kind) × (kind < 5) }
    ensures event { result ≡ Event → (5 ≤ kind) × (kind < 8) }
    ensures ids { result ≡ Ids → (8 ≤ kind) × (kind < 11) }
    ensures timed { result ≡ Timed → (11 ≤ kind) × (kind < 14) }
    ensures mode { result ≡ Mode → (kind < 3) ⊎ (14 ≤ kind) }
{
    match kind {
        NEEDED_MODIFIER..=REORG => Group::Control,
        ANNOUNCED..=OTHER_MESSAGE => Group::Event,
        LOST_PEER..=EVICTED => Group::Ids,
        PROGRESS..=SCHEDULED_TICK => Group::Timed,
        _ => Group::Mode,
    }
}

// `places` are the state area's 256 places of stalled peers. A kind outside 1 to 16 is read as the end of the stream.
pub fn plan_step(head: Head, call: Call, places: StalledPlaces, ids: &[u8], shown: Shown) -> Plan
    ensures { (st : State) (c : calls.Call) → head_of st ≡ head → numbers_of c ≡ call → c.ids ≡ ids.now → Shows c shown.entry → st.sync.stalled_peers ≡ map from_be (entries 8 places.entry.count places.entry.bytes.now) → Follows st c result }
{
    match group_of(call.kind) {
        Group::Control => crate::control::handle_control_event(head, call, shown),
        Group::Event => crate::events::handle_event(head, call, ids, shown),
        Group::Ids => crate::wakes::ids_step(head, call, shown),
        Group::Timed => crate::wakes::timed_step(head, call, places, shown),
        Group::Mode => crate::wakes::mode_step(head, call, places, shown),
    }
}
