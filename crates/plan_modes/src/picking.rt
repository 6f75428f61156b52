// The sync peer: picked in seeking, and given up in syncing once it has stalled (rules 1 and 9).
//
// Each plan equals the model's of its name for every state with the header that it is given.
ghost use Rattle.std.specs.Prelude.{◌≡◌, true, length};
ghost use Rattle.model.specs.State.{State};
ghost use Rattle.model.specs.Settings as model;
ghost use Rattle.model.specs.Peers.{select_peer, stalled_after_select, join_stalled};
ghost use Rattle.model.specs.Steps as steps;
ghost use Rattle.model.specs.Lists.{peers_in};
ghost use Rattle.model.specs.Calls as calls;
ghost use Rattle.model.specs.Calls.{args_of};
ghost use Rattle.peers.specs.Stalled.{stalled_peers};
ghost use Rattle.image.specs.Heads.{head_of};
ghost use Rattle.plan.specs.Plans.{is_quiet, stalled_by, sketch_in, sketch_of};

use image::head::Head;
use peers::stalled_set::Stalled;
use plan::{Plan, Stalling, Work};

// How selecting changes the stalled set.
#[tactic(auto, unfolding(model::specs::Peers::stalled_after_select))]
fn selecting(stalled: Stalled, peers: &[u8]) -> Stalling
    ensures { (st : State) (c : calls.Call) → st.sync.stalled_peers ≡ stalled_peers stalled → stalled_by st c result ≡ stalled_after_select st.sync.stalled_peers (peers_in peers.now) }
{
    if peers::all_stalled(stalled, peers) {
        return Stalling::Empty;
    }
    Stalling::Stay
}

// How many have stalled then.
fn stalled_after(stalled: Stalled, stalling: Stalling) -> usize
    ensures { (st : State) (c : calls.Call) → st.sync.stalled_peers ≡ stalled_peers stalled → result ≡ length (stalled_by st c stalling) }
{
    match stalling {
        Stalling::Stay => stalled.count,
        Stalling::Empty => 0,
        Stalling::Join(_) => stalled.count + 1,
    }
}

// A pick stays in seeking while none is chosen, else enters syncing. Picking sets last progress and counts sends from 0.
pub fn picks(head: Head, clock: u64, stalled: Stalled, peers: &[u8]) -> Plan
    ensures work_value { is_quiet result.work ≡ true }
    ensures result_value { (st : State) (c : calls.Call) → head_of st ≡ head → c.clock ≡ clock → c.peers ≡ peers.now → st.sync.stalled_peers ≡ stalled_peers stalled → sketch_in st c result ≡ sketch_of st c (steps.picks st (args_of c) (select_peer st.sync.stalled_peers (peers_in peers.now))) }
{
    let stalling = selecting(stalled, peers);
    let after = Head {
        clock,
        sent: false,
        stalled: stalled_after(stalled, stalling),
        ..head
    };
    let Some(peer) = peers::select_peer(stalled, peers) else {
        let seeking = Head {
            mode: image::mode::SEEKING,
            ..after
        };
        return Plan {
            stalling,
            ..Plan::usual(seeking, Work::Nothing)
        };
    };
    let picked = Head {
        send: settings::reset_sends(head.send),
        progress: clock,
        ..after
    };
    plan::sync_infos::enters_syncing(picked, clock, plan::outcome::CONTINUE, peer, None, stalling)
}

// A stalled sync peer joins the set, once.
#[tactic(auto, unfolding(model::specs::Peers::join_stalled))]
fn joining(stalled: Stalled, peer: u64) -> Stalling
    ensures { (st : State) (c : calls.Call) → st.sync.stalled_peers ≡ stalled_peers stalled → stalled_by st c result ≡ join_stalled peer st.sync.stalled_peers }
{
    if stalled.contains(peer) {
        return Stalling::Stay;
    }
    Stalling::Join(peer)
}

// Scheduled tick in syncing: send, then see whether the peer has stalled.
pub fn ticks_syncing(head: Head, clock: u64, stalled: Stalled) -> Plan
    ensures work_value { is_quiet result.work ≡ true }
    ensures result_value { (st : State) (c : calls.Call) → head_of st ≡ head → c.clock ≡ clock → st.sync.stalled_peers ≡ stalled_peers stalled → sketch_in st c result ≡ sketch_of st c (steps.ticks_syncing st (args_of c) (model.stalled st.settings clock st.sync.last_progress)) }
{
    let (send, says) = plan::sync_infos::sends(head, clock, head.peer);
    let after = Head {
        clock,
        send,
        used: false,
        sent: false,
        ..head
    };
    if head.settings.stalled(clock, head.progress) {
        let stalling = joining(stalled, head.peer);
        let left = Head {
            mode: image::mode::SEEKING,
            peer: 0,
            stalled: stalled_after(stalled, stalling),
            ..after
        };
        return Plan {
            outcome: plan::outcome::STALLED,
            says,
            stalling,
            ..Plan::usual(left, Work::Nothing)
        };
    }
    let same = Head {
        mode: image::mode::SYNCING,
        ..after
    };
    Plan {
        says,
        ..Plan::usual(same, Work::Nothing)
    }
}
