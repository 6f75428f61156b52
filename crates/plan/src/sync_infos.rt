// The sync infos that a step sends (rule 2): at an entry to syncing, and as a reply.
//
// Each plan equals the model's of its name for every state with the header that it is given.
ghost use Rattle.std.specs.Prelude.{◌≡◌, not, ℕ};
ghost use Rattle.std.specs.Bool.{then_some};
ghost use Rattle.model.specs.Settings.{throttled};
ghost use Rattle.model.specs.Peers.{send_sync_info};
ghost use Rattle.model.specs.State.{State, Mode, Sync};
ghost use Rattle.model.specs.Events.{Outcome, outcome_number};
ghost use Rattle.model.specs.Events as events;
ghost use Rattle.model.specs.Steps as steps;
ghost use Rattle.model.specs.Lists.{ids_in};
ghost use Rattle.model.specs.Calls as calls;
ghost use Rattle.model.specs.Calls.{args_of};
ghost use Rattle.peers.specs.Peers.{listed_peer};
ghost use Rattle.settings.specs.Values.{settings_of, send_clock_of};
ghost use Rattle.image.specs.Heads.{head_of};
ghost use Rattle.plan.specs.Plans.{stalled_by, announce_to, head_by, sketch_in, sketch_of};
ghost use Rattle.plan.specs.declared.Work.TheVariants.{Nothing};

use crate::{Plan, Stalling, Work};
use image::head::Head;
use settings::SendClock;

// Rule 2 towards a peer, from a header: the send clock after it, and whom a sync info goes to, if one is sent.
pub fn sends(head: Head, clock: u64, peer: u64) -> (SendClock, Option<u64>)
    ensures clock_value { send_clock_of result.0 ≡ send_sync_info (settings_of head.settings) clock (send_clock_of head.send) }
    ensures says_value { result.1 ≡ then_some (not (throttled (settings_of head.settings) clock head.send.last)) peer }
{
    let sent = settings::sending::send_by(head.send, head.settings, clock);
    (sent.clock, sent.sent.then_some(peer))
}

// Entry to syncing from a header that has what led to it: rule 2 sends, progress may send again, and the entry mark says
// whether this send went out.
pub fn enters_syncing(
    head: Head,
    clock: u64,
    outcome: u8,
    peer: u64,
    announces: Option<u64>,
    stalling: Stalling,
) -> Plan
    ensures work_value { result.work ≡ Nothing }
    ensures announces_value { result.announces ≡ announces }
    ensures result_value { (st : State) (c : calls.Call) (o : Outcome) (earlier : ℕ) (m : Mode) (sync : Sync) → head_by st c earlier m sync ≡ head → c.clock ≡ clock → outcome_number o ≡ outcome → stalled_by st c stalling ≡ sync.stalled_peers → sketch_in st c result ≡ sketch_of st c (steps.enters_syncing st (args_of c) o peer (announce_to (listed_peer announces) (ids_in c.continuation)) sync) }
{
    let (send, says) = sends(head, clock, peer);
    let after = Head {
        clock,
        mode: image::mode::SYNCING,
        peer,
        used: false,
        sent: says.is_some(),
        send,
        ..head
    };
    Plan {
        outcome,
        announces,
        says,
        stalling,
        ..Plan::usual(after, Work::Nothing)
    }
}

// A sync info's Continue: rule 2 replies.
pub fn replies(head: Head, clock: u64, tip: u32, peer: u64, announces: Option<u64>) -> Plan
    ensures work_value { result.work ≡ Nothing }
    ensures announces_value { result.announces ≡ announces }
    ensures result_value { (st : State) (c : calls.Call) → head_of st ≡ head → c.clock ≡ clock → sketch_in st c result ≡ sketch_of st c (steps.answers st (args_of c) peer (announce_to (listed_peer announces) (ids_in c.continuation)) tip events.Continue) }
{
    let (send, reply) = sends(head, clock, peer);
    let heard = Head {
        clock,
        sent: false,
        send,
        tip,
        ..head
    };
    Plan {
        announces,
        says: reply,
        ..Plan::usual(heard, Work::Nothing)
    }
}
