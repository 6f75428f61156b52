// Program `keeper` line by line, on a table of pending requests that its caller lends.
//
// `answer_line` equals `answered` of specs/Keeping.antt on every line. There are at most 256 ids of one repeated byte, so a
// table of 1,024 records never fills.
//
// Table and output are written, so what holds of them is a clause, and the place to write stands beside the output.
ghost use Rattle.std.specs.Prelude.{◌≡◌, ◌&&◌, ◌+◌, ◌≤◌, length, leb};
ghost use Rattle.fields.specs.Overwrite.{overwritten};
ghost use Rattle.keeper_lines.specs.Line.{line_of};
ghost use Rattle.keeper_lines.specs.declared.lines.Line.TheVariants as line;
ghost use Rattle.keeper_text.specs.Keeping.{timed, at_first, answered};
ghost use Rattle.keeper_text.specs.Kept.{keeping_in, values_of, keeper_of, Kept, answer_as, bytes_of, table_after, Holds};

use commands::place::Place;
use keeper_lines::lines::Line;
use lists::pairs::Pairs;
use model::layout::{COMMAND_SIZE, TRACKED_LIMIT};
use peers::aim::Aim;
use settings::Settings;

// What is kept from line to line, beside the table of pending requests. The table is the caller's, who lends it anew to each
// line: a struct that held the loan would say `Kept` of its two fields in place of two parameters.
#[derive(Clone, Copy)]
pub struct Keeper {
    // `t` was read; as the definition has it, there are settings before that too
    pub begun: bool,
    pub settings: Settings,
    pub clock: u64,
    pub count: usize,
}

// The settings that `t` gives: no send is held back, and nobody stalls.
fn limits(timeout: u32, limit: u32) -> Settings
    ensures { result ≡ values_of (timed timeout limit) }
{
    Settings {
        timeout,
        checks: limit,
        interval: 0,
        stall: 0,
    }
}

// Before the first line.
pub fn at_first() -> Keeper
    ensures { result ≡ keeper_of at_first }
{
    let settings = limits(0, 0);
    Keeper {
        begun: false,
        settings,
        clock: 0,
        count: 0,
    }
}

// `t TIMEOUT LIMIT`, once.
fn begin(
    keeper: Keeper,
    table: &[u8],
    timeout: u32,
    limit: u32,
    at: usize,
) -> Option<(Keeper, usize)>
    requires { Kept keeper table.now }
    ensures value { result ≡ answer_as at (answered (keeping_in keeper table.now) (Some (line.Settings timeout limit))) }
    ensures table_value { table.now ≡ table_after keeper.count (answered (keeping_in keeper table.now) (Some (line.Settings timeout limit))) table.now }
    ensures holds { Holds (answered (keeping_in keeper table.now) (Some (line.Settings timeout limit))) table.now }
{
    if keeper.begun {
        return None;
    }
    let settings = limits(timeout, limit);
    let next = Keeper {
        begun: true,
        settings,
        ..keeper
    };
    Some((next, at))
}

// Whether a line with this clock may come: after `t`, and not before the last clock.
fn in_order(keeper: Keeper, clock: u64) -> bool
    ensures { result ≡ keeper.begun && leb keeper.clock clock }
{
    keeper.begun & (keeper.clock <= clock)
}

// `q CLOCK PEER TYPE ID`: rule 3 with the gate open and nothing stored. What it would send goes nowhere.
fn request(
    table: &mut [u8],
    keeper: Keeper,
    clock: u64,
    peer: u64,
    typeid: u16,
    byte: u8,
    at: usize,
) -> Option<(Keeper, usize)>
    requires { Kept keeper table.old }
    ensures value { result ≡ answer_as at (answered (keeping_in keeper table.old) (Some (line.Request clock peer typeid byte))) }
    ensures table_after { table.new ≡ table_after keeper.count (answered (keeping_in keeper table.old) (Some (line.Request clock peer typeid byte))) table.old }
    ensures holds { Holds (answered (keeping_in keeper table.old) (Some (line.Request clock peer typeid byte))) table.new }
{
    if !in_order(keeper, clock) {
        return None;
    }
    let count = keeper.count;
    let ids = [byte; 32];
    let mut rest = [0; 32];
    let mut sent = [0; COMMAND_SIZE];
    let none = Pairs { bytes: b"" };
    let place = Place { at: 0, batch: 0 };
    let Ok(written) = request_announced::request::request_announced(
        table, count, 1024, true, clock, typeid, peer, none, &ids, &mut rest, &mut sent, place,
    ) else {
        return None;
    };
    let next = Keeper {
        clock,
        count: written.count,
        ..keeper
    };
    Some((next, at))
}

// `c CLOCK`: check_timeouts, by which no request moves to another peer, and its counts as a row.
fn check(
    table: &mut [u8],
    keeper: Keeper,
    clock: u64,
    out: &mut [u8],
    at: usize,
) -> Option<(Keeper, usize)>
    requires { Kept keeper table.old × (at + 126 ≤ length out.old) }
    ensures value { result ≡ answer_as at (answered (keeping_in keeper table.old) (Some (line.Check clock))) }
    ensures table_after { table.new ≡ table_after keeper.count (answered (keeping_in keeper table.old) (Some (line.Check clock))) table.old }
    ensures out_after { out.new ≡ overwritten at (bytes_of (answered (keeping_in keeper table.old) (Some (line.Check clock)))) out.old }
    ensures holds { Holds (answered (keeping_in keeper table.old) (Some (line.Check clock))) table.new }
{
    if !in_order(keeper, clock) {
        return None;
    }
    let count = keeper.count;
    let settings = keeper.settings;
    let mut places = [0; TRACKED_LIMIT];
    let made = check_timeouts::check::check_timeouts(
        table,
        count,
        settings,
        clock,
        false,
        Aim::Same,
        &mut places,
    );
    let row = [
        clock,
        made.retried as u64,
        0,
        made.abandoned as u64,
        made.forgotten as u64,
        made.pending as u64,
    ];
    let end = keeper_lines::rows::put_row(out, at, &row);
    let next = Keeper {
        clock,
        count: made.pending,
        ..keeper
    };
    Some((next, end))
}

// What a line does, without its line feed: the keeper then, and where its answer ends, which stands in `out` from `at` on.
// Nothing where the line ends the program.
pub fn answer_line(
    table: &mut [u8],
    keeper: Keeper,
    text: &[u8],
    out: &mut [u8],
    at: usize,
) -> Option<(Keeper, usize)>
    requires { Kept keeper table.old × (at + 126 ≤ length out.old) }
    ensures value { result ≡ answer_as at (answered (keeping_in keeper table.old) (line_of text.now)) }
    ensures table_after { table.new ≡ table_after keeper.count (answered (keeping_in keeper table.old) (line_of text.now)) table.old }
    ensures out_after { out.new ≡ overwritten at (bytes_of (answered (keeping_in keeper table.old) (line_of text.now))) out.old }
    ensures holds { Holds (answered (keeping_in keeper table.old) (line_of text.now)) table.new }
{
    let line = keeper_lines::lines::parse(text)?;
    match line {
        Line::Settings(timeout, limit) => begin(keeper, table, timeout, limit, at),
        Line::Request(clock, peer, typeid, byte) => {
            request(table, keeper, clock, peer, typeid, byte, at)
        }
        Line::Check(clock) => check(table, keeper, clock, out, at),
    }
}
