// The entries: opening, step, its forecast and question, in `mean_age` that of the mean age, and in `map` those of the map of the
// window, on numbers and byte slices. The crate `request_keeper_c` exports them.
//
// None demands anything of its caller: any number and any bytes are answered, as docs/LAYOUT.md says. Each is one equation
// with the entry's definition in model/specs/Calls.antt, which demand 3 speaks of, in Forecast.antt, in MeanAge.antt, or in
// WindowMap.antt. A refused call, a forecast and a mean age write nothing, an opening the state area, a step both areas, a
// question the command area, a call of the map the map. docs/SPEED.md has what they cost.
//
// Numbers and slices one by one, as C gives them.
#![tactic(auto)]

pub mod map;
pub mod mean_age;

ghost use Rattle.std.specs.Prelude.{◌≡◌};
ghost use Rattle.model.specs.Calls.{open', step, question};
ghost use Rattle.model.specs.Forecast.{forecast};
ghost use Rattle.refusals.specs.Lent.{call_with};
ghost use Rattle.step.specs.Answers.{answer_in};
ghost use Rattle.step.specs.Forecasts.{forecast_in};

use model::layout::AREA_SIZE;
use plan::Call;
use refusals::lent::Lists;
use refusals::refusal::Refusal;
use settings::Settings;
use step::finish::Answer;
use step::forecast::Forecast;

// A fresh core in an area of 65,536 bytes; nothing of the old bytes survives. Answers 0, or 1 with the area untouched.
pub fn request_keeper_open(
    state: &mut [u8],
    timeout: u32,
    checks: u32,
    interval: u32,
    stall: u32,
    clock: u64,
    height: u32,
) -> u32
    ensures { record { number = result; state = state.new } ≡ open' state.old (record { settings = record { timeout = timeout; max_checks = checks; min_send_interval = interval; stall_timeout = stall }; clock = clock; height = height }) }
{
    if state.len() != AREA_SIZE {
        return Refusal::StateArea.number();
    }
    let settings = Settings {
        timeout,
        checks,
        interval,
        stall,
    };
    image::opening::open(state, settings, clock, height);
    0
}

// A step: the refusals that are known before it, then the step itself.
fn take_step(
    state: &mut [u8],
    commands: &mut [u8],
    call: Call,
    lists: Lists,
) -> Result<Answer, Refusal>
    ensures { record { answer = answer_in result; state = state.new; commands = commands.new } ≡ step state.old commands.old (call_with call lists.entry) }
{
    refusals::step_refusal(state, commands.len(), call, lists)?;
    step::run(state, commands, call, lists)
}

// One step: refused with its number and both areas untouched, or finished.
pub fn request_keeper_step(
    state: &mut [u8],
    commands: &mut [u8],
    kind: u8,
    clock: u64,
    gate: u8,
    height: u32,
    peer: u64,
    typeid: u16,
    fork: u32,
    parsed: u8,
    hastip: u8,
    tip: u32,
    ids: &[u8],
    continuation: &[u8],
    stored: &[u8],
    peers: &[u8],
    view: &[u8],
) -> Answer
    ensures { record { answer = record { number = result.number; outcome = result.outcome; retried = result.retried; fresh = result.fresh; abandoned = result.abandoned; forgotten = result.forgotten; pending = result.pending; evicted = result.evicted; length = result.length }; state = state.new; commands = commands.new } ≡ step state.old commands.old (record { kind = kind; clock = clock; gate = gate; height = height; peer = peer; typeid = typeid; fork = fork; parsed = parsed; hastip = hastip; tip = tip; ids = ids.now; continuation = continuation.now; stored = stored.now; peers = peers.now; view = view.now }) }
{
    let call = Call {
        kind,
        clock,
        gate,
        height,
        peer,
        typeid,
        fork,
        parsed,
        hastip,
        tip,
    };
    let lists = Lists {
        ids,
        continuation,
        stored,
        peers,
        view,
    };
    match take_step(state, commands, call, lists) {
        Ok(answer) => answer,
        Err(refusal) => step::finish::refused(refusal.number()),
    }
}

// The same of a forecast, which has no command area.
fn forecast_step(state: &[u8], call: Call, lists: Lists) -> Result<Forecast, Refusal>
    ensures { forecast_in result ≡ forecast state.now (call_with call lists.entry) }
{
    refusals::step_refusal(state, AREA_SIZE, call, lists)?;
    step::forecast::forecast_step(state, call, lists)
}

// What such a step would need: refused with its number and all else 0, or its figures. Nothing is written.
pub fn request_keeper_forecast(
    state: &[u8],
    kind: u8,
    clock: u64,
    gate: u8,
    height: u32,
    peer: u64,
    typeid: u16,
    fork: u32,
    parsed: u8,
    hastip: u8,
    tip: u32,
    ids: &[u8],
    continuation: &[u8],
    stored: &[u8],
    peers: &[u8],
    view: &[u8],
) -> Forecast
    ensures { record { number = result.number; outcome = result.outcome; pending = result.pending; evicted = result.evicted; commands = result.commands; length = result.length } ≡ forecast state.now (record { kind = kind; clock = clock; gate = gate; height = height; peer = peer; typeid = typeid; fork = fork; parsed = parsed; hastip = hastip; tip = tip; ids = ids.now; continuation = continuation.now; stored = stored.now; peers = peers.now; view = view.now }) }
{
    let call = Call {
        kind,
        clock,
        gate,
        height,
        peer,
        typeid,
        fork,
        parsed,
        hastip,
        tip,
    };
    let lists = Lists {
        ids,
        continuation,
        stored,
        peers,
        view,
    };
    match forecast_step(state, call, lists) {
        Ok(forecast) => forecast,
        Err(refusal) => step::forecast::no_figures(refusal.number()),
    }
}

// The question's two numbers, in the order of docs/LAYOUT.md.
#[repr(C)]
#[derive(Clone, Copy)]
pub struct Asked {
    pub number: u32,
    pub length: u32,
}

// The pairs that a check (flag 0) or a lost peer (flag 1) may read, written to the command area.
pub fn request_keeper_question(state: &[u8], commands: &mut [u8], flag: u8) -> Asked
    ensures { record { number = result.number; length = result.length; commands = commands.new } ≡ question state.now commands.old flag }
{
    match refusals::question_refusal(state, commands.len(), flag) {
        Err(refusal) => Asked {
            number: refusal.number(),
            length: 0,
        },
        Ok(()) => {
            let head = image::head::read_head(state);
            let length = question::question_pairs(state, head, flag == 1, commands);
            Asked {
                number: 0,
                length: length as u32,
            }
        }
    }
}
