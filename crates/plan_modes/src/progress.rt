// Plans of progress (rule 9).
//
// Each equals the model's plan of its name for every state with the header that it is given.
//
// Header, clock and what is shown one by one: three values of three sources.
ghost use Rattle.std.specs.Prelude.{◌≡◌, true};
ghost use Rattle.model.specs.State.{State, is_mode, syncing};
ghost use Rattle.model.specs.Steps as steps;
ghost use Rattle.model.specs.Calls as calls;
ghost use Rattle.model.specs.Calls.{args_of};
ghost use Rattle.image.specs.Heads.{head_of};
ghost use Rattle.plan.specs.Plans.{is_quiet, Shows, sketch_in, sketch_of};

use image::head::Head;
use plan::shown::Shown;
use plan::{Plan, Stalling};

// Progress in syncing: last progress is now, nobody is stalled, and after rule 4 one send is tried before the next entry or
// scheduled tick.
fn progresses_syncing(head: Head, clock: u64, shown: Shown) -> Plan
    ensures work_value { is_quiet result.work ≡ true }
    ensures result_value { (st : State) (c : calls.Call) → head_of st ≡ head → c.clock ≡ clock → Shows c shown.entry → sketch_in st c result ≡ sketch_of st c (steps.progresses st (args_of c) true) }
{
    let seen = plan::next_sections::sections_seen(shown, head.downloaded);
    let work = plan::next_sections::sections_work(false, shown.peers);
    let after = Head {
        clock,
        mode: image::mode::SYNCING,
        progress: clock,
        stalled: 0,
        used: true,
        sent: false,
        ..head
    };
    if head.used {
        return Plan {
            stalling: Stalling::Empty,
            seen,
            ..Plan::usual(after, work)
        };
    }
    let (send, says) = plan::sync_infos::sends(head, clock, head.peer);
    let sent = Head { send, ..after };
    Plan {
        says,
        stalling: Stalling::Empty,
        seen,
        ..Plan::usual(sent, work)
    }
}

// Progress runs rule 4.
pub fn progresses(head: Head, clock: u64, shown: Shown) -> Plan
    ensures work_value { is_quiet result.work ≡ true }
    ensures result_value { (st : State) (c : calls.Call) → head_of st ≡ head → c.clock ≡ clock → Shows c shown.entry → sketch_in st c result ≡ sketch_of st c (steps.progresses st (args_of c) (is_mode st.mode syncing)) }
{
    if head.mode == image::mode::SYNCING {
        return progresses_syncing(head, clock, shown);
    }
    let seen = plan::next_sections::sections_seen(shown, head.downloaded);
    let work = plan::next_sections::sections_work(false, shown.peers);
    let after = Head {
        clock,
        sent: false,
        ..head
    };
    Plan {
        seen,
        ..Plan::usual(after, work)
    }
}
