// Why a call is refused, and the refusals that are known before a step is worked out: 1 to 8, in document 01's order; for a
// question 1, 2, 3 and 5, for the mean age 1, 2 and 4.
//
// Equal to these of `step_refusal` and `question_refusal` in model/specs/Calls.antt, and of `mean_age_refusal` in MeanAge.antt.
// Reads only. A refused call costs what was read up to the fault: one pass over the state area, then the lists, then the view.
#![tactic(auto)]

pub mod fitting;
pub mod lent;
pub mod refusal;
pub mod view;

ghost use Rattle.std.specs.Prelude.{◌≡◌, length, ℕ, List};
ghost use Rattle.model.specs.State.{State, mode_number};
ghost use Rattle.model.specs.Steps.{of_mode};
ghost use Rattle.model.specs.Calls as calls;
ghost use Rattle.model.specs.Calls.{step_of, call_fits, image_refusal, question_refusal};
ghost use Rattle.model.specs.MeanAge.{mean_age_refusal};
ghost use Rattle.image.specs.Heads.{head_of};
ghost use Rattle.plan.specs.Plans.{numbers_of};
ghost use Rattle.refusals.specs.Lent.{call_with};
ghost use Rattle.refusals.specs.Numbers.{number_in};
ghost use Rattle.refusals.specs.Refusals.{areas_refusal, lent_refusal, given_refusal};

use crate::lent::Lists;
use crate::refusal::Refusal;
use image::head::Head;
use image::mode::{NEW, SEEKING, SYNCED, SYNCING};
use model::layout::AREA_SIZE;
use plan::Call;
use plan::kind::{
    END_OF_STREAM, NEEDED_MODIFIER, PICK, SCHEDULED_TICK, SECTION_TICK, SEND_FAILURE, START,
};

// Whether a step of this kind may be taken in this mode (document 01, "Steps by mode").
fn of_mode(mode: u8, sent: bool, kind: u8) -> bool
    ensures { (st : State) (c : calls.Call) → mode_number st.mode ≡ mode → st.sync.entry_sent ≡ sent → c.kind ≡ kind → result ≡ of_mode st.mode st.sync.entry_sent (step_of c) }
{
    let synced = (mode == SYNCING) | (mode == SYNCED);
    match kind {
        START => mode == NEW,
        PICK => mode == SEEKING,
        SECTION_TICK => mode == SYNCED,
        SEND_FAILURE => (mode == SYNCING) & sent,
        NEEDED_MODIFIER..=SCHEDULED_TICK => synced,
        _ => (mode == SEEKING) | synced,
    }
}

// Number 5: kind, flags and mode.
fn call_fits(head: Head, call: Call) -> bool
    ensures { (st : State) (c : calls.Call) → head_of st ≡ head → numbers_of c ≡ call → result ≡ call_fits st c }
{
    let known = (START <= call.kind) & (call.kind <= END_OF_STREAM);
    let flags = (call.gate <= 1) & ((call.parsed <= 1) & (call.hastip <= 1));
    known & (flags & of_mode(head.mode, head.sent, call.kind))
}

// 1 and 2.
fn image_refusal(state: &[u8]) -> Result<(), Refusal>
    ensures { number_in result ≡ image_refusal state.now 0 }
{
    if state.len() != AREA_SIZE {
        return Err(Refusal::StateArea);
    }
    if !image_test::formed::is_well_formed(state) {
        return Err(Refusal::Image);
    }
    Ok(())
}

// 1 to 3.
fn areas_refusal(state: &[u8], room: usize) -> Result<(), Refusal>
    ensures { number_in result ≡ areas_refusal state.now room 0 }
{
    image_refusal(state)?;
    if room < AREA_SIZE {
        return Err(Refusal::CommandArea);
    }
    Ok(())
}

// 4 to 8.
fn lent_refusal(head: Head, call: Call, lists: Lists) -> Result<(), Refusal>
    ensures { (st : State) → head_of st ≡ head → number_in result ≡ lent_refusal st (call_with call lists.entry) }
{
    if call.clock < head.clock {
        return Err(Refusal::Clock);
    }
    if !call_fits(head, call) {
        return Err(Refusal::Call);
    }
    if !crate::fitting::lists_fit(call.kind, lists) {
        return Err(Refusal::Lists);
    }
    if !crate::fitting::peers_fit(lists.peers) {
        return Err(Refusal::Peers);
    }
    if !crate::view::view_fits(lists.view) {
        return Err(Refusal::View);
    }
    Ok(())
}

// 1 to 8 for a step; `room` is the command area's length.
pub fn step_refusal(state: &[u8], room: usize, call: Call, lists: Lists) -> Result<(), Refusal>
    ensures { number_in result ≡ given_refusal state.now room (call_with call lists.entry) }
{
    areas_refusal(state, room)?;
    let head = image::head::read_head(state);
    lent_refusal(head, call, lists)
}

// 1, 2, 3 and 5 for a question.
pub fn question_refusal(state: &[u8], room: usize, flag: u8) -> Result<(), Refusal>
    ensures { (area : List ℕ) → length area ≡ room → number_in result ≡ question_refusal state.now area flag }
{
    areas_refusal(state, room)?;
    if 1 < flag {
        return Err(Refusal::Call);
    }
    Ok(())
}

// 1, 2 and 4 for the mean age.
pub fn mean_age_refusal(state: &[u8], clock: u64) -> Result<(), Refusal>
    ensures { number_in result ≡ mean_age_refusal state.now clock }
{
    image_refusal(state)?;
    if clock < image::head::read_head(state).clock {
        return Err(Refusal::Clock);
    }
    Ok(())
}
