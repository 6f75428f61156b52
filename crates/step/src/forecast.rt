// What a step will need, without taking it (F-3): the step worked out on a copy of the state and on room for commands, of which
// nothing is kept but figures.
//
// It costs what a step on copies costs, but for the copies back.
//
// Header, plan, numbers and lists come one by one: what is asked of all is `Planned`, between them and the state.
ghost use Rattle.std.specs.Prelude.{◌≡◌, ◌≤◌, length, take};
ghost use Rattle.fields.specs.Zero.{zeros};
ghost use Rattle.model.specs.Commands.{commands_in};
ghost use Rattle.model.specs.Forecast as model;
ghost use Rattle.model.specs.Layout.{area_size};
ghost use Rattle.refusals.specs.Lent.{call_with};
ghost use Rattle.refusals.specs.Refusals.{given_refusal};
ghost use Rattle.step.specs.Answers.{answer_of};
ghost use Rattle.step.specs.Forecasts.{forecast_of, forecast_in};
ghost use Rattle.step.specs.Planned.{lent_in, Planned};
ghost use Rattle.step.specs.Rooms.{room_of};

use crate::finish::Answer;
use image::head::Head;
use plan::{Call, Plan};
use refusals::lent::Lists;
use refusals::refusal::Refusal;

// Six numbers, in the order of docs/LAYOUT.md.
#[repr(C)]
#[derive(Clone, Copy)]
pub struct Forecast {
    pub number: u32,
    pub outcome: u32,
    pub pending: u32,
    pub evicted: u32,
    pub commands: u32,
    pub length: u32,
}

// A refusal's: its number, all else 0.
pub fn no_figures(number: u32) -> Forecast
    ensures { forecast_of result ≡ model.no_figures number }
{
    Forecast {
        number,
        outcome: 0,
        pending: 0,
        evicted: 0,
        commands: 0,
        length: 0,
    }
}

// The figures of an answer, with the commands counted in their bytes.
fn figures(answer: Answer, out: &[u8]) -> Forecast
    requires { (answer.length ≤ length out.now) × (length out.now ≤ area_size) }
    ensures { forecast_of result ≡ model.figures (answer_of answer) (commands_in (take answer.length out.now)) }
{
    let end = answer.length as usize;
    let count = commands::counting::count_commands(&out[..end]);
    Forecast {
        number: answer.number,
        outcome: answer.outcome,
        pending: answer.pending,
        evicted: answer.evicted,
        commands: count as u32,
        length: answer.length,
    }
}

// A planned step's, worked out on a copy of the state in `image`, which is zero before, and on room for its commands.
fn forecast_in(
    state: &[u8],
    image: &mut [u8],
    out: &mut [u8],
    head: Head,
    plan: Plan,
    call: Call,
    lists: Lists,
) -> Result<Forecast, Refusal>
    requires planned { Planned state.now head plan call (lent_in lists) × (image.old ≡ zeros area_size) }
    requires announces_in_bounds { (room_of head (length lists.ids.now) plan.work plan.announces ≤ length out.old) × (length out.old ≤ area_size) }
    ensures { forecast_in result ≡ model.forecast state.now (call_with call lists.entry) }
{
    crate::copied::copy_used(state, head, image);
    let answer = crate::working::work_out(image, out, head, plan, call, lists)?;
    Ok(figures(answer, out))
}

// A planned step's: the state is read only. Mostly its commands are few, and so is the room to clear for them.
fn forecast_planned(
    state: &[u8],
    head: Head,
    plan: Plan,
    call: Call,
    lists: Lists,
) -> Result<Forecast, Refusal>
    requires { Planned state.now head plan call (lent_in lists) }
    ensures { forecast_in result ≡ model.forecast state.now (call_with call lists.entry) }
{
    let mut image = crate::copied::room();
    let work = plan.work;
    let announces = plan.announces;
    if crate::rooms::room_of(head, lists.ids.len(), work, announces) <= 4096 {
        let mut few = [0u8; 4096];
        return forecast_in(state, &mut image, &mut few, head, plan, call, lists);
    }
    let mut out = crate::copied::room();
    forecast_in(state, &mut image, &mut out, head, plan, call, lists)
}

// A step that none of 1, 2 and 4 to 8 refuses.
pub fn forecast_step(state: &[u8], call: Call, lists: Lists) -> Result<Forecast, Refusal>
    requires { given_refusal state.now area_size (call_with call lists) ≡ 0 }
    ensures { forecast_in result ≡ model.forecast state.now (call_with call lists.entry) }
{
    let head = image::head::read_head(state);
    let plan = crate::planning::plan(state, head, call, lists);
    if !plan.seen {
        return Err(Refusal::Unseen);
    }
    forecast_planned(state, head, plan, call, lists)
}
