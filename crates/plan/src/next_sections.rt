// Rule 4 in a plan: what a step asks for of the window's sections, and the steps that run the rule.
//
// Each plan equals the model's of its name for every state with the header that it is given, and costs the view rows that its
// rules read.
//
// `sections_work` needs no view and `sections_seen` no reorg: two functions, though callers want both.
ghost use Rattle.std.specs.Prelude.{◌≡◌, false, cond, eqb};
ghost use Rattle.model.specs.State.{State};
ghost use Rattle.model.specs.Peers.{first_of};
ghost use Rattle.model.specs.Sections.{request_next_sections};
ghost use Rattle.model.specs.Steps as steps;
ghost use Rattle.model.specs.Lists.{ids_in, peers_in, view_of};
ghost use Rattle.model.specs.Calls as calls;
ghost use Rattle.model.specs.Calls.{args_of};
ghost use Rattle.peers.specs.Peers.{listed_peer};
ghost use Rattle.image.specs.Heads.{head_of};
ghost use Rattle.plan.specs.Plans.{announce_to, sections_work, Shows, sketch_in, sketch_of};
ghost use Rattle.plan.specs.declared.Work.TheVariants.{Nothing};

use crate::shown::Shown;
use crate::{Plan, Work};
use image::head::Head;

// Rule 4's work: with no outbound peer nothing is requested. A reorg purges first.
pub fn sections_work(purges: bool, peers: &[u8]) -> Work
    ensures { result ≡ sections_work purges (first_of (peers_in peers.now)) }
{
    match (peers::first_listed(peers), purges) {
        (None, false) => Work::Nothing,
        (None, true) => Work::Purge,
        (Some(peer), false) => Work::Sections(peer),
        (Some(peer), true) => Work::PurgeSections(peer),
    }
}

// Whether all heights that rule 4 reads are in the view.
#[tactic(auto, unfolding(model::specs::Sections::request_sections_from, model::specs::Sections::request_next_sections))]
pub fn sections_seen(shown: Shown, downloaded: u32) -> bool
    ensures { result ≡ (request_next_sections (view_of shown.entry.view.bytes.now) shown.entry.height downloaded (peers_in shown.entry.peers.now)).in_view }
{
    match peers::first_listed(shown.peers) {
        None => true,
        Some(_) => heights::window::window_seen(shown.view, shown.height, downloaded),
    }
}

// Rules 5 and 4, from a downloaded height on.
pub fn advances_and_requests(head: Head, clock: u64, from: u32, purges: bool, shown: Shown) -> Plan
    ensures work_value { result.work ≡ sections_work purges (first_of (peers_in shown.entry.peers.now)) }
    ensures result_value { (st : State) (c : calls.Call) → head_of st ≡ head → c.clock ≡ clock → Shows c shown.entry → sketch_in st c result ≡ sketch_of st c (steps.advances_and_requests st (args_of c) from) }
{
    let advance = heights::downloaded::advance_downloaded_height(shown.view, shown.height, from);
    let seen = sections_seen(shown, advance.height);
    let work = sections_work(purges, shown.peers);
    let after = Head {
        clock,
        sent: false,
        downloaded: advance.height,
        ..head
    };
    Plan {
        seen: advance.seen & seen,
        ..Plan::usual(after, work)
    }
}

// Synced. Entry to synced, from syncing, runs rule 4.
pub fn is_at_tip(head: Head, clock: u64, tip: u32, announces: Option<u64>, shown: Shown) -> Plan
    ensures work_value { result.work ≡ cond (eqb head.mode 2) (sections_work false (first_of (peers_in shown.entry.peers.now))) Nothing }
    ensures announces_value { result.announces ≡ announces }
    ensures result_value { (st : State) (c : calls.Call) → head_of st ≡ head → c.clock ≡ clock → Shows c shown.entry → sketch_in st c result ≡ sketch_of st c (steps.is_at_tip st (args_of c) (announce_to (listed_peer announces) (ids_in c.continuation)) tip) }
{
    let after = Head {
        clock,
        mode: image::mode::SYNCED,
        used: false,
        sent: false,
        tip,
        ..head
    };
    let plan = Plan {
        outcome: crate::outcome::SYNCED,
        announces,
        ..Plan::usual(after, Work::Nothing)
    };
    let enters = head.mode == image::mode::SYNCING;
    if enters {
        let seen = sections_seen(shown, head.downloaded);
        let work = sections_work(false, shown.peers);
        return Plan { work, seen, ..plan };
    }
    plan
}
