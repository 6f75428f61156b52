// What a message comes to (rule 7): announced ids and sync infos, by value.
//
// Each equals the model's plan of its name for every state with the header that it is given. Other messages do nothing.
ghost use Rattle.std.specs.Prelude.{◌≡◌, true, cond, eqb};
ghost use Rattle.std.proofs.Math.Option.{none, some};
ghost use Rattle.model.specs.State.{State};
ghost use Rattle.model.specs.Events.{BehindPeer};
ghost use Rattle.model.specs.Steps as steps;
ghost use Rattle.model.specs.Lists.{ids_in};
ghost use Rattle.model.specs.Calls as calls;
ghost use Rattle.model.specs.Calls.{args_of};
ghost use Rattle.peers.specs.Peers.{listed_peer};
ghost use Rattle.image.specs.Heads.{head_of};
ghost use Rattle.plan.specs.Plans.{is_quiet, announce_to, numbers_of, Shows, sketch_in, sketch_of};
ghost use Rattle.plan.specs.declared.Work.TheVariants.{Nothing};
ghost use Rattle.plan_messages.specs.Heard.{outcome_of};

use crate::events::Heard;
use image::head::Head;
use model::HEADER_TYPE_ID;
use model::layout::ID_SIZE;
use plan::outcome::BEHIND_PEER;
use plan::shown::Shown;
use plan::{Call, Plan, Stalling, Work};

// Headers, sections and transactions use rule 3, to the sender. An empty header list from the sync peer gives Synced, from any
// other peer nothing (F-5).
pub fn hears_announced(head: Head, call: Call, ids: &[u8], shown: Shown) -> Plan
    ensures work_value { is_quiet result.work ≡ true }
    ensures result_value { (st : State) (c : calls.Call) → head_of st ≡ head → numbers_of c ≡ call → c.ids ≡ ids.now → Shows c shown.entry → sketch_in st c result ≡ sketch_of st c (steps.hears_announced st (args_of c) c.peer c.typeid (ids_in c.ids)) }
{
    // Fewer bytes are an empty list: only whole ids count.
    if ID_SIZE <= ids.len() {
        if crate::events::is_announceable(call.typeid) {
            return plan::continuing::continues(head, call.clock, Work::Ids(call.peer));
        }
        return plan::continuing::continues(head, call.clock, Work::Nothing);
    }
    let tells_tip = (call.typeid == HEADER_TYPE_ID) & (call.peer == head.peer);
    if tells_tip {
        return plan::next_sections::is_at_tip(head, call.clock, head.tip, None, shown);
    }
    plan::continuing::continues(head, call.clock, Work::Nothing)
}

// BehindPeer makes that peer the sync peer, empties the stalled set and enters syncing anew, without the resets of picking.
fn falls_behind(head: Head, clock: u64, tip: u32, peer: u64, announces: Option<u64>) -> Plan
    ensures work_value { result.work ≡ Nothing }
    ensures result_value { (st : State) (c : calls.Call) → head_of st ≡ head → c.clock ≡ clock → sketch_in st c result ≡ sketch_of st c (steps.answers st (args_of c) peer (announce_to (listed_peer announces) (ids_in c.continuation)) tip BehindPeer) }
{
    let after = Head {
        sent: false,
        tip,
        stalled: 0,
        ..head
    };
    plan::sync_infos::enters_syncing(after, clock, BEHIND_PEER, peer, announces, Stalling::Empty)
}

// What a sync info leads to: a reply, synced, or syncing anew with its sender.
fn answers(
    head: Head,
    call: Call,
    heard: Heard,
    tip: u32,
    announces: Option<u64>,
    shown: Shown,
) -> Plan
    ensures work_value { is_quiet result.work ≡ true }
    ensures result_value { (st : State) (c : calls.Call) → head_of st ≡ head → numbers_of c ≡ call → Shows c shown.entry → sketch_in st c result ≡ sketch_of st c (steps.answers st (args_of c) c.peer (announce_to (listed_peer announces) (ids_in c.continuation)) tip (outcome_of heard)) }
{
    match heard {
        Heard::Continue => plan::sync_infos::replies(head, call.clock, tip, call.peer, announces),
        Heard::Synced => plan::next_sections::is_at_tip(head, call.clock, tip, announces, shown),
        Heard::Behind => falls_behind(head, call.clock, tip, call.peer, announces),
    }
}

// A sync info. Tip and continuation ids are read only if parsing worked.
pub fn hears_sync_info(head: Head, call: Call, shown: Shown) -> Plan
    ensures work_value { is_quiet result.work ≡ true }
    ensures result_value { (st : State) (c : calls.Call) → head_of st ≡ head → numbers_of c ≡ call → Shows c shown.entry → sketch_in st c result ≡ sketch_of st c (steps.hears_sync_info st (args_of c) c.peer (eqb c.parsed 1) (cond (eqb c.hastip 1) (some c.tip) none) (ids_in c.continuation)) }
{
    let parsed = call.parsed == 1;
    let tip = (parsed & (call.hastip == 1)).then_some(call.tip);
    let known = crate::events::raised_tip(head.tip, tip);
    let goes = crate::events::continues_chain(parsed, call.height, tip);
    let announces = goes.then_some(call.peer);
    let heard = crate::events::tip_outcome(call.peer == head.peer, call.height, tip);
    answers(head, call, heard, known, announces, shown)
}
