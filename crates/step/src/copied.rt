// A step on copies, since it may be refused after something was written: the areas are written only where it finished.
//
// Areas, header, plan, numbers and lists come one by one: what is asked of all is `Planned`, between them and the state.
ghost use Rattle.std.specs.Prelude.{◌≡◌, ◌≤◌, length, true};
ghost use Rattle.step.specs.Answers.{answer_in};
ghost use Rattle.step.specs.Planned.{lent_in, Planned, StepsTo};
ghost use Rattle.fields.specs.Zero.{zeros};
ghost use Rattle.image.specs.Heads.{head_in};
ghost use Rattle.model.specs.Image.{well_formed};
ghost use Rattle.model.specs.Layout.{area_size};

use crate::finish::Answer;
use image::head::Head;
use model::layout::{AREA_SIZE, ID_SIZE, RECORD_SIZE, REGION_AT};
use plan::{Call, Plan};
use refusals::lent::Lists;
use refusals::refusal::Refusal;

// Zeros: room for the commands of a step, or for an image, in a function of its own for proofs that hold none of them.
pub fn room() -> [u8; 65536]
    ensures { result ≡ zeros area_size }
{
    [0u8; 65536]
}

// A well-formed state area copied onto zeros: what it uses of its bytes, since the rest is zero.
pub fn copy_used(state: &[u8], head: Head, image: &mut [u8])
    requires { (length state.now ≡ area_size) × ((well_formed state.now ≡ true) × ((head ≡ head_in state.now) × (image.old ≡ zeros area_size))) }
    ensures { image.new ≡ state.now }
{
    let records_end = REGION_AT + head.pending * RECORD_SIZE;
    spans::copying::copy_prefix(state, records_end, image);
    let evicted_at = AREA_SIZE - head.evicted * ID_SIZE;
    spans::copying::copy(&state[evicted_at..], &mut image[evicted_at..]);
}

// The same as `step_on_copies`, with room to work in: `image`, a copy of the state area, and `out` for commands.
fn step_in(
    state: &mut [u8],
    commands: &mut [u8],
    image: &mut [u8],
    out: &mut [u8],
    head: Head,
    plan: Plan,
    call: Call,
    lists: Lists,
) -> Result<Answer, Refusal>
    requires planned { Planned state.old head plan call (lent_in lists) }
    requires area_size_in_bounds { (area_size ≤ length commands.old) × ((image.old ≡ state.old) × (length out.old ≡ area_size)) }
    ensures { StepsTo state.old commands.old call (lent_in lists.entry) (answer_in result) state.new commands.new }
{
    let answer = crate::working::work_out(image, out, head, plan, call, lists)?;
    spans::copying::copy(image, state);
    spans::copying::copy_prefix(out, answer.length as usize, commands);
    Ok(answer)
}

// The areas are written only where the step finishes: all else is done on copies.
pub fn step_on_copies(
    state: &mut [u8],
    commands: &mut [u8],
    head: Head,
    plan: Plan,
    call: Call,
    lists: Lists,
) -> Result<Answer, Refusal>
    requires { Planned state.old head plan call (lent_in lists) × (area_size ≤ length commands.old) }
    ensures { StepsTo state.old commands.old call (lent_in lists.entry) (answer_in result) state.new commands.new }
{
    let mut image = spans::copying::scratch(state);
    let mut out = room();
    step_in(
        state, commands, &mut image, &mut out, head, plan, call, lists,
    )
}
