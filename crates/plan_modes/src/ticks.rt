// Plans of checks, of the scheduled tick in synced and of a lost peer (rules 6 and 9).
//
// Each equals the model's plan of its name for every state with the header that it is given.
ghost use Rattle.std.specs.Prelude.{◌≡◌, true, cond, ◌&&◌, eqb, None};
ghost use Rattle.model.specs.State.{State, is_mode, syncing};
ghost use Rattle.model.specs.Peers.{first_of};
ghost use Rattle.model.specs.Steps as steps;
ghost use Rattle.model.specs.Lists.{peers_in};
ghost use Rattle.model.specs.Calls as calls;
ghost use Rattle.model.specs.Calls.{args_of};
ghost use Rattle.image.specs.Heads.{head_of};
ghost use Rattle.plan.specs.Plans.{is_quiet, check_work, lose_work, Shows, sketch_in, sketch_of};
ghost use Rattle.plan.specs.declared.Work.TheVariants.{Nothing};

use image::head::Head;
use peers::aim::Aim;
use plan::shown::Shown;
use plan::{Plan, Work};

// A check's work: fresh ids go to the first listed peer, stalled or not; with nobody listed they are lost.
fn check_work(aim: Aim, peers: &[u8]) -> Work
    ensures { result ≡ check_work aim (first_of (peers_in peers.now)) }
{
    match peers::first_listed(peers) {
        None => Work::Check(aim),
        Some(peer) => Work::CheckFresh(peer, aim),
    }
}

// A check, its retries by this aim. In syncing it also runs rule 5.
pub fn checks(head: Head, clock: u64, aim: Aim, shown: Shown) -> Plan
    ensures work_value { (result.work ≡ check_work aim (first_of (peers_in shown.entry.peers.now))) × (result.announces ≡ None) }
    ensures result_value { (st : State) (c : calls.Call) → head_of st ≡ head → c.clock ≡ clock → Shows c shown.entry → sketch_in st c result ≡ sketch_of st c (steps.checks st (args_of c) (is_mode st.mode syncing)) }
{
    let work = check_work(aim, shown.peers);
    let after = Head {
        clock,
        sent: false,
        ..head
    };
    if head.mode == image::mode::SYNCING {
        let reached = heights::downloaded::advance_downloaded_height(
            shown.view,
            shown.height,
            head.downloaded,
        );
        let risen = Head {
            downloaded: reached.height,
            ..after
        };
        return Plan {
            seen: reached.seen,
            ..Plan::usual(risen, work)
        };
    }
    Plan::usual(after, work)
}

// Scheduled tick in synced: send to the first listed peer, then rule 5; with no peer listed the mode is seeking.
pub fn ticks_synced(head: Head, clock: u64, shown: Shown) -> Plan
    ensures work_value { is_quiet result.work ≡ true }
    ensures result_value { (st : State) (c : calls.Call) → head_of st ≡ head → c.clock ≡ clock → Shows c shown.entry → sketch_in st c result ≡ sketch_of st c (steps.ticks_synced st (args_of c) (first_of (peers_in shown.entry.peers.now))) }
{
    let Some(peer) = peers::first_listed(shown.peers) else {
        return plan::continuing::leaves(
            head,
            clock,
            plan::outcome::SYNC_PEER_GONE,
            image::mode::SEEKING,
            Work::Nothing,
        );
    };
    let (send, says) = plan::sync_infos::sends(head, clock, peer);
    let from = head.downloaded;
    let advance = heights::downloaded::advance_downloaded_height(shown.view, shown.height, from);
    let after = Head {
        clock,
        send,
        sent: false,
        downloaded: advance.height,
        ..head
    };
    Plan {
        says,
        seen: advance.seen,
        ..Plan::usual(after, Work::Nothing)
    }
}

// What is done when the sync peer is lost in syncing: with nobody listed, nothing is asked again.
fn lose_work(peers: &[u8]) -> Work
    ensures { result ≡ lose_work (first_of (peers_in peers.now)) }
{
    match peers::first_listed(peers) {
        None => Work::Lose,
        Some(peer) => Work::LoseAsk(peer),
    }
}

// Losing the sync peer re-requests its ids in syncing only. Losing another changes nothing.
pub fn loses(head: Head, clock: u64, peer: u64, peers: &[u8]) -> Plan
    ensures work_value { result.work ≡ cond (eqb peer head.peer && eqb head.mode 2) (lose_work (first_of (peers_in peers.now))) Nothing }
    ensures result_value { (st : State) (c : calls.Call) → head_of st ≡ head → c.clock ≡ clock → c.peers ≡ peers.now → sketch_in st c result ≡ sketch_of st c (steps.loses st (args_of c) peer) }
{
    if peer != head.peer {
        return plan::continuing::continues(head, clock, Work::Nothing);
    }
    let syncing = head.mode == image::mode::SYNCING;
    let work = if syncing {
        lose_work(peers)
    } else {
        Work::Nothing
    };
    plan::continuing::leaves(
        head,
        clock,
        plan::outcome::SYNC_PEER_GONE,
        image::mode::SEEKING,
        work,
    )
}
