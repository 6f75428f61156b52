// The entries of `request_keeper`, exported for C and Rust: ten functions on numbers and byte slices, which the archive
// librequest_keeper.a has and host/request-keeper/include/request_keeper.h declares.
//
// Each calls the entry of its name and states its clauses again, word for word. A slice comes as a pointer and a length. None
// asks anything of its caller.
#![tactic(auto)]

pub mod map;

ghost use Rattle.std.specs.Prelude.{◌≡◌};
ghost use Rattle.model.specs.Calls.{open', step, question};
ghost use Rattle.model.specs.Forecast.{forecast};
ghost use Rattle.model.specs.MeanAge.{mean_age};

use request_keeper::Asked;
use request_keeper::mean_age::MeanAge;
use step::finish::Answer;
use step::forecast::Forecast;

// A fresh core in an area of 65,536 bytes; nothing of the old bytes survives. Answers 0, or 1 with the area untouched.
#[unsafe(no_mangle)]
pub extern "C" fn request_keeper_open(
    state: &mut [u8],
    timeout: u32,
    checks: u32,
    interval: u32,
    stall: u32,
    clock: u64,
    height: u32,
) -> u32
    ensures { record { number = result; state = state.new } ≡ open' state.old (record { settings = record { timeout = timeout; max_checks = checks; min_send_interval = interval; stall_timeout = stall }; clock = clock; height = height }) }
{
    request_keeper::request_keeper_open(state, timeout, checks, interval, stall, clock, height)
}

// One step: refused with its number and both areas untouched, or finished.
#[unsafe(no_mangle)]
pub extern "C" fn request_keeper_step(
    state: &mut [u8],
    commands: &mut [u8],
    kind: u8,
    clock: u64,
    gate: u8,
    height: u32,
    peer: u64,
    typeid: u16,
    fork: u32,
    parsed: u8,
    hastip: u8,
    tip: u32,
    ids: &[u8],
    continuation: &[u8],
    stored: &[u8],
    peers: &[u8],
    view: &[u8],
) -> Answer
    ensures { record { answer = record { number = result.number; outcome = result.outcome; retried = result.retried; fresh = result.fresh; abandoned = result.abandoned; forgotten = result.forgotten; pending = result.pending; evicted = result.evicted; length = result.length }; state = state.new; commands = commands.new } ≡ step state.old commands.old (record { kind = kind; clock = clock; gate = gate; height = height; peer = peer; typeid = typeid; fork = fork; parsed = parsed; hastip = hastip; tip = tip; ids = ids.now; continuation = continuation.now; stored = stored.now; peers = peers.now; view = view.now }) }
{
    request_keeper::request_keeper_step(
        state,
        commands,
        kind,
        clock,
        gate,
        height,
        peer,
        typeid,
        fork,
        parsed,
        hastip,
        tip,
        ids,
        continuation,
        stored,
        peers,
        view,
    )
}

// What such a step would need: refused with its number and all else 0, or its figures. Nothing is written.
#[unsafe(no_mangle)]
pub extern "C" fn request_keeper_forecast(
    state: &[u8],
    kind: u8,
    clock: u64,
    gate: u8,
    height: u32,
    peer: u64,
    typeid: u16,
    fork: u32,
    parsed: u8,
    hastip: u8,
    tip: u32,
    ids: &[u8],
    continuation: &[u8],
    stored: &[u8],
    peers: &[u8],
    view: &[u8],
) -> Forecast
    ensures { record { number = result.number; outcome = result.outcome; pending = result.pending; evicted = result.evicted; commands = result.commands; length = result.length } ≡ forecast state.now (record { kind = kind; clock = clock; gate = gate; height = height; peer = peer; typeid = typeid; fork = fork; parsed = parsed; hastip = hastip; tip = tip; ids = ids.now; continuation = continuation.now; stored = stored.now; peers = peers.now; view = view.now }) }
{
    request_keeper::request_keeper_forecast(
        state,
        kind,
        clock,
        gate,
        height,
        peer,
        typeid,
        fork,
        parsed,
        hastip,
        tip,
        ids,
        continuation,
        stored,
        peers,
        view,
    )
}

// The pairs that a check (flag 0) or a lost peer (flag 1) may read, written to the command area.
#[unsafe(no_mangle)]
pub extern "C" fn request_keeper_question(state: &[u8], commands: &mut [u8], flag: u8) -> Asked
    ensures { record { number = result.number; length = result.length; commands = commands.new } ≡ question state.now commands.old flag }
{
    request_keeper::request_keeper_question(state, commands, flag)
}

// The mean age of what is pending at a clock. Answers 0, 1, 2 or 4, and all else 0 if it is refused.
#[unsafe(no_mangle)]
pub extern "C" fn request_keeper_mean_age(state: &[u8], clock: u64) -> MeanAge
    ensures { record { number = result.number; count = result.count; quotient = result.quotient; remainder = result.remainder } ≡ mean_age state.now clock }
{
    request_keeper::mean_age::request_keeper_mean_age(state, clock)
}
