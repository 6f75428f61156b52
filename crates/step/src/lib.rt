// A step on bytes: its plan, carried out on the areas themselves, or on copies where a refusal may come after something was
// written. It is refused as 9, 10 or 11 with both areas as they were.
//
// `run` equals `step` of model/specs/Calls.antt for every call that none of 1 to 8 refuses. It costs the records and rows
// that its rules read and the bytes that it writes; on copies also a copy of the state area and one back.
#![tactic(auto)]

pub mod copied;
pub mod copies;
pub mod finish;
pub mod forecast;
mod parts;
mod planning;
pub mod rooms;
pub mod stalling;
pub mod working;

ghost use Rattle.std.specs.Prelude.{◌≡◌, length};
ghost use Rattle.model.specs.Calls as calls;
ghost use Rattle.refusals.specs.Lent.{call_with};
ghost use Rattle.refusals.specs.Refusals.{given_refusal};
ghost use Rattle.step.specs.Answers.{answer_in};

use crate::finish::Answer;
use plan::Call;
use refusals::lent::Lists;
use refusals::refusal::Refusal;

// A step that none of 1 to 8 refuses.
pub fn run(
    state: &mut [u8],
    commands: &mut [u8],
    call: Call,
    lists: Lists,
) -> Result<Answer, Refusal>
    requires { given_refusal state.old (length commands.old) (call_with call lists) ≡ 0 }
    ensures { record { answer = answer_in result; state = state.new; commands = commands.new } ≡ calls.step state.old commands.old (call_with call lists.entry) }
{
    let head = image::head::read_head(state);
    let plan = crate::planning::plan(state, head, call, lists);
    if !plan.seen {
        return Err(Refusal::Unseen);
    }
    let work = plan.work;
    let announces = plan.announces;
    let after = plan.head;
    let copies = crate::copies::works_on_copies(work, announces);
    if copies | (256 < after.stalled) {
        return crate::copied::step_on_copies(state, commands, head, plan, call, lists);
    }
    crate::working::work_out(state, commands, head, plan, call, lists)
}
