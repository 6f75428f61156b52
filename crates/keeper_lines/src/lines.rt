// The lines that the program `keeper` reads.
//
// A line is taken exactly or not at all: `parse` equals `line_of` of specs/Line.antt on every byte list. Each byte is read
// at most three times.
ghost use Rattle.std.specs.Prelude.{◌≡◌, ◌+◌, length, drop};
ghost use Rattle.keeper_lines.specs.Line.{next_line, line_of, settings_of, request_of, check_of};
ghost use Rattle.keeper_lines.specs.Reading.{fields_behind};

use crate::field::{decimal_behind, hex_behind};

#[derive(Clone, Copy)]
pub enum Line {
    // timeout, limit
    Settings(u32, u32),
    // clock, peer, type, the byte that the id repeats
    Request(u64, u64, u16, u8),
    // clock
    Check(u64),
}

// `t TIMEOUT LIMIT`
fn settings(line: &[u8]) -> Option<Line>
    ensures { result ≡ settings_of (fields_behind 1 line.now) }
{
    let (timeout, a) = decimal_behind(line, 1, 4294967295)?;
    let (limit, b) = decimal_behind(line, a, 4294967295)?;
    if b < line.len() {
        return None;
    }
    Some(Line::Settings(timeout as u32, limit as u32))
}

// `q CLOCK PEER TYPE ID`
fn request(line: &[u8]) -> Option<Line>
    ensures { result ≡ request_of (fields_behind 1 line.now) }
{
    let (clock, a) = decimal_behind(line, 1, u64::MAX)?;
    let (peer, b) = decimal_behind(line, a, u64::MAX)?;
    let (typeid, c) = decimal_behind(line, b, 65535)?;
    let (id, d) = hex_behind(line, c)?;
    if d < line.len() {
        return None;
    }
    Some(Line::Request(clock, peer, typeid as u16, id))
}

// `c CLOCK`
fn check(line: &[u8]) -> Option<Line>
    ensures { result ≡ check_of (fields_behind 1 line.now) }
{
    let (clock, a) = decimal_behind(line, 1, u64::MAX)?;
    if a < line.len() {
        return None;
    }
    Some(Line::Check(clock))
}

// What a line says, without its line feed.
pub fn parse(line: &[u8]) -> Option<Line>
    ensures { result ≡ line_of line.now }
{
    let [letter, b' ', ..] = line else {
        return None;
    };
    match *letter {
        b't' => settings(line),
        b'q' => request(line),
        b'c' => check(line),
        _ => None,
    }
}

// Where the line that starts at `from` ends: the index of its line feed, or the length. Beyond the length: `from`.
pub fn line_end(text: &[u8], from: usize) -> usize
    ensures { result ≡ from + length (next_line (drop from text.now)) }
{
    if text.len() < from {
        return from;
    }
    input::find(text, from, b'\n')
}
