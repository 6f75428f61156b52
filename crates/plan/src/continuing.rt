// How a step goes on: in its mode, to seeking or ended, or with rule 5.
//
// Each equals the model's plan of its name for every state with the header that it is given. Only rule 5 costs view rows.
ghost use Rattle.std.specs.Prelude.{◌≡◌, [], ℕ};
ghost use Rattle.model.specs.State.{State, Mode};
ghost use Rattle.model.specs.State as state;
ghost use Rattle.model.specs.Events.{Outcome, outcome_number};
ghost use Rattle.model.specs.Steps as steps;
ghost use Rattle.model.specs.Calls as calls;
ghost use Rattle.model.specs.Calls.{args_of};
ghost use Rattle.image.specs.Heads.{head_of};
ghost use Rattle.plan.specs.Plans.{acts_by, sketch_in, sketch_of};

use crate::{Plan, Work};
use image::head::Head;
use lists::view::View;

// Continue in the same mode. Unless it is an entry that sent, a step clears the entry mark.
pub fn continues(head: Head, clock: u64, work: Work) -> Plan
    ensures work_value { result.work ≡ work }
    ensures result_value { (st : State) (c : calls.Call) → head_of st ≡ head → c.clock ≡ clock → sketch_in st c result ≡ sketch_of st c (steps.continues st (args_of c) (acts_by st c head.downloaded work)) }
{
    let same = Head {
        clock,
        sent: false,
        ..head
    };
    Plan::usual(same, work)
}

// To seeking, or from seeking to ended: there is no sync peer there.
pub fn leaves(head: Head, clock: u64, outcome: u8, mode: u8, work: Work) -> Plan
    ensures work_value { result.work ≡ work }
    ensures result_value { (st : State) (c : calls.Call) (o : Outcome) (m : Mode) → head_of st ≡ head → c.clock ≡ clock → outcome_number o ≡ outcome → state.mode_number m ≡ mode → sketch_in st c result ≡ sketch_of st c (steps.leaves st (args_of c) o m (acts_by st c head.downloaded work)) }
{
    let left = Head {
        clock,
        mode,
        peer: 0,
        used: false,
        sent: false,
        ..head
    };
    Plan {
        outcome,
        ..Plan::usual(left, work)
    }
}

// Rule 5, beside work that asks for nothing.
pub fn advances(head: Head, clock: u64, mode: u8, work: Work, view: View, height: u32) -> Plan
    ensures work_value { result.work ≡ work }
    ensures result_value { (st : State) (c : calls.Call) (m : Mode) → head_of st ≡ head → c.clock ≡ clock → c.height ≡ height → c.view ≡ view.entry.bytes.now → state.mode_number m ≡ mode → ((downloaded : ℕ) → acts_by st c downloaded work ≡ []) → sketch_in st c result ≡ sketch_of st c (steps.advances st (args_of c) m) }
{
    let advance = heights::downloaded::advance_downloaded_height(view, height, head.downloaded);
    let after = Head {
        clock,
        mode,
        sent: false,
        downloaded: advance.height,
        ..head
    };
    Plan {
        seen: advance.seen,
        ..Plan::usual(after, work)
    }
}
