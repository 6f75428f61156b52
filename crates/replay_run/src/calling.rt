// The calls of the core that a line asks for, on its areas.
ghost use Rattle.std.specs.Prelude.{◌≤◌};

use replay_text::areas::{Areas, BLANK};
use replay_text::line_words::AreaCall;
use replay_text::numbers;
use replay_text::words::Words;
use step::finish::Answer;

// A step through the exported entry.
fn step(state: &mut [u8], commands: &mut [u8], words: &Words) -> [u64; 9] {
    let call = numbers::of_step(&words.numbers);
    let [peers, stored, view, ids, continuation] = words.lists();
    let answer = request_keeper::request_keeper_step(
        state,
        commands,
        call.kind,
        call.clock,
        call.gate,
        call.height,
        call.peer,
        call.typeid,
        call.fork,
        call.parsed,
        call.hastip,
        call.tip,
        ids,
        continuation,
        stored,
        peers,
        view,
    );
    nine(answer)
}

// The nine numbers of an answer, as a line lists them. No `From`: both types are of other crates.
fn nine(answer: Answer) -> [u64; 9] {
    [
        u64::from(answer.number),
        u64::from(answer.outcome),
        u64::from(answer.retried),
        u64::from(answer.fresh),
        u64::from(answer.abandoned),
        u64::from(answer.forgotten),
        u64::from(answer.pending),
        u64::from(answer.evicted),
        u64::from(answer.length),
    ]
}

// `open` answers its number.
fn open(state: &mut [u8], words: &Words) -> [u64; 9] {
    let given = numbers::of_opening(&words.numbers);
    let number = request_keeper::request_keeper_open(
        state,
        given.timeout,
        given.checks,
        given.interval,
        given.stall,
        given.clock,
        given.height,
    );
    [u64::from(number), 0, 0, 0, 0, 0, 0, 0, 0]
}

// `ask` answers number and length.
fn ask(state: &[u8], commands: &mut [u8], words: &Words) -> [u64; 9] {
    let flag = numbers::byte(words.numbers[0]);
    let asked = request_keeper::request_keeper_question(state, commands, flag);
    let number = u64::from(asked.number);
    let size = u64::from(asked.length);
    [number, size, 0, 0, 0, 0, 0, 0, 0]
}

// `age` answers number, count, quotient and remainder.
fn age(state: &[u8], words: &Words) -> [u64; 9] {
    let mean = request_keeper::mean_age::request_keeper_mean_age(state, words.numbers[0]);
    let number = u64::from(mean.number);
    let count = u64::from(mean.count);
    [number, count, mean.quotient, mean.remainder, 0, 0, 0, 0, 0]
}

// Whichever call it is.
fn run(state: &mut [u8], commands: &mut [u8], call: AreaCall, words: &Words) -> [u64; 9] {
    match call {
        AreaCall::Open => open(state, words),
        AreaCall::Step => step(state, commands, words),
        AreaCall::Ask => ask(state, commands, words),
        AreaCall::Age => age(state, words),
    }
}

// Makes the call that a line asks for, on areas of these lengths. Its command area is blank, and has to stay so unless lines
// say otherwise.
pub fn make(areas: &mut Areas, call: AreaCall, long: usize, wide: usize, words: &Words) -> [u64; 9]
    requires { (long ≤ 131072) × (wide ≤ 131072) }
{
    let mut state = areas.lent;
    let mut commands = [BLANK; 131072];
    areas.commands.fill(BLANK);
    let answer = run(&mut state[..long], &mut commands[..wide], call, words);
    areas.left = state;
    areas.commands_left = commands;
    answer
}
