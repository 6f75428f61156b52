// The plans of the steps that are no message and no control event (rule 9).
//
// Each follows the model's plan, remaining requests, retries and evicted ids for the calls of its kinds.
//
// Header, numbers, places and what is shown one by one: each kind reads others of them.
ghost use Rattle.std.specs.Prelude.{◌≡◌, cond, map, ◌⊎◌, ◌≤◌, ◌<◌};
ghost use Rattle.fields.specs.Number.{from_be};
ghost use Rattle.fields.specs.Entries.{entries};
ghost use Rattle.model.specs.State.{State, mode_number, is_mode, seeking, ended};
ghost use Rattle.model.specs.Calls as calls;
ghost use Rattle.image.specs.Heads.{head_of};
ghost use Rattle.plan.specs.Plans.{numbers_of, Shows, Follows};

use image::head::Head;
use image::mode::{ENDED, SEEKING, SYNCING};
use peers::stalled_set::StalledPlaces;
use plan::kind::{CHECK, LOST_PEER, PICK, PROGRESS, RECEIVED, SECTION_TICK, SEND_FAILURE, START};
use plan::outcome::{END_OF_STREAM, SYNC_PEER_GONE};
use plan::shown::Shown;
use plan::{Call, Plan, Work, continuing};

// A lost peer, received ids (rule 5 follows) and evicted ids.
pub fn ids_step(head: Head, call: Call, shown: Shown) -> Plan
    ensures { (st : State) (c : calls.Call) → head_of st ≡ head → numbers_of c ≡ call → Shows c shown.entry → 8 ≤ c.kind → c.kind < 11 → Follows st c result }
{
    match call.kind {
        LOST_PEER => plan_modes::ticks::loses(head, call.clock, call.peer, shown.peers),
        RECEIVED => continuing::advances(
            head,
            call.clock,
            head.mode,
            Work::Received,
            shown.view,
            shown.height,
        ),
        _ => continuing::continues(head, call.clock, Work::Evicted),
    }
}

// The scheduled tick, by mode.
fn scheduled_tick(head: Head, call: Call, places: StalledPlaces, shown: Shown) -> Plan
    ensures { (st : State) (c : calls.Call) → head_of st ≡ head → numbers_of c ≡ call → Shows c shown.entry → st.sync.stalled_peers ≡ map from_be (entries 8 places.entry.count places.entry.bytes.now) → c.kind ≡ 13 → Follows st c result }
{
    let syncing = head.mode == SYNCING;
    if syncing {
        return plan_modes::picking::ticks_syncing(head, call.clock, places.read());
    }
    plan_modes::ticks::ticks_synced(head, call.clock, shown)
}

// A check: the stalled set is read as it is before the step, and says where retries go.
fn delivery_check(head: Head, call: Call, places: StalledPlaces, shown: Shown) -> Plan
    ensures { (st : State) (c : calls.Call) → head_of st ≡ head → numbers_of c ≡ call → Shows c shown.entry → st.sync.stalled_peers ≡ map from_be (entries 8 places.entry.count places.entry.bytes.now) → c.kind ≡ 12 → Follows st c result }
{
    let stalled = places.read();
    let aim = peers::aim::retry_aim(stalled, shown.peers);
    plan_modes::ticks::checks(head, call.clock, aim, shown)
}

// Progress, checks and the scheduled tick.
pub fn timed_step(head: Head, call: Call, places: StalledPlaces, shown: Shown) -> Plan
    ensures { (st : State) (c : calls.Call) → head_of st ≡ head → numbers_of c ≡ call → Shows c shown.entry → st.sync.stalled_peers ≡ map from_be (entries 8 places.entry.count places.entry.bytes.now) → 11 ≤ c.kind → c.kind < 14 → Follows st c result }
{
    match call.kind {
        PROGRESS => plan_modes::progress::progresses(head, call.clock, shown),
        CHECK => delivery_check(head, call, places, shown),
        _ => scheduled_tick(head, call, places, shown),
    }
}

// A pick, with the stalled set read from its places.
fn pick(head: Head, call: Call, places: StalledPlaces, peers: &[u8]) -> Plan
    ensures { (st : State) (c : calls.Call) → head_of st ≡ head → numbers_of c ≡ call → c.peers ≡ peers.now → st.sync.stalled_peers ≡ map from_be (entries 8 places.entry.count places.entry.bytes.now) → c.kind ≡ 2 → Follows st c result }
{
    plan_modes::picking::picks(head, call.clock, places.read(), peers)
}

// The mode after the end of the stream: from seeking ended, else seeking.
fn ended_mode(mode: u8) -> u8
    ensures { (st : State) → mode_number st.mode ≡ mode → mode_number (cond (is_mode st.mode seeking) ended seeking) ≡ result }
{
    if mode == SEEKING {
        return ENDED;
    }
    SEEKING
}

// The steps that one mode takes, and the end of the stream.
pub fn mode_step(head: Head, call: Call, places: StalledPlaces, shown: Shown) -> Plan
    ensures { (st : State) (c : calls.Call) → head_of st ≡ head → numbers_of c ≡ call → Shows c shown.entry → st.sync.stalled_peers ≡ map from_be (entries 8 places.entry.count places.entry.bytes.now) → (c.kind < 3) ⊎ (14 ≤ c.kind) → Follows st c result }
{
    match call.kind {
        START => continuing::advances(
            head,
            call.clock,
            SEEKING,
            Work::Nothing,
            shown.view,
            shown.height,
        ),
        PICK => pick(head, call, places, shown.peers),
        SECTION_TICK => plan::next_sections::advances_and_requests(
            head,
            call.clock,
            head.downloaded,
            false,
            shown,
        ),
        SEND_FAILURE => continuing::leaves(
            head,
            call.clock,
            SYNC_PEER_GONE,
            SEEKING,
            Work::Nothing,
        ),
        _ => continuing::leaves(
            head,
            call.clock,
            END_OF_STREAM,
            ended_mode(head.mode),
            Work::Nothing,
        ),
    }
}
