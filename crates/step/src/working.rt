// A plan worked out on a state area and on room for commands, be they the caller's or copies: the one place where a step is done.
//
// Areas, header, plan, numbers and lists come one by one: what is asked of all is `Planned`, between them and the state.
ghost use Rattle.std.specs.Prelude.{◌≡◌, ◌≤◌, length, IfOk};
ghost use Rattle.step.specs.Answers.{answer_in};
ghost use Rattle.step.specs.Planned.{lent_in, Planned, WorksIn};
ghost use Rattle.step.specs.Rooms.{room_of};

use crate::finish::Answer;
use image::head::Head;
use lists::ids::Ids;
use lists::pairs::Pairs;
use lists::view::View;
use model::layout::REGION_AT;
use plan::{Call, Plan};
use refusals::lent::Lists;
use refusals::refusal::Refusal;

// 10, 11, or finished. A refusal leaves both areas as they were if the work needs no copies; else what stands in them is of no
// use.
pub fn work_out(
    state: &mut [u8],
    commands: &mut [u8],
    head: Head,
    plan: Plan,
    call: Call,
    lists: Lists,
) -> Result<Answer, Refusal>
    requires planned { Planned state.old head plan call (lent_in lists) }
    requires announces_in_bounds { room_of head (length lists.ids.now) plan.work plan.announces ≤ length commands.old }
    ensures works_in { WorksIn state.old commands.old plan call (lent_in lists.entry) (answer_in result) state.new commands.new }
    ensures finished { IfOk result (λ a. a.number ≡ 0) }
    ensures length_in_bounds { IfOk result (λ a. a.length ≤ length commands.old) }
{
    let ids = Ids { bytes: lists.ids };
    let stored = Pairs {
        bytes: lists.stored,
    };
    let view = View { bytes: lists.view };
    let counts = work_asks::carry::carry_out(
        &mut state[REGION_AT..],
        commands,
        head,
        plan,
        call,
        ids,
        lists.continuation,
        stored,
        view,
    )?;
    let after = plan.head;
    if 256 < after.stalled {
        return Err(Refusal::Stalled);
    }
    Ok(crate::finish::settle(state, commands, head.stalled, plan, counts))
}
