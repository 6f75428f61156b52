// Program `keeper` of document 01: a row of clock, retried, fresh, abandoned, forgotten and pending for each check.
//
// What it prints is said and proved in keeper_text; here it is read and written in pieces, by standard input and output alone.
// A line of 1,536 bytes or more is "any other line".
//
// Table and output are written, so how far they reach is a clause.
#![tactic(auto)]

ghost use Rattle.std.specs.Prelude.{◌≡◌, ◌+◌, ◌*◌, ◌≤◌, ◌<◌, length, IfOk, IfSome};
ghost use Rattle.keeper_text.specs.Kept.{Kept};

use keeper_text::keeping::Keeper;
use std::io;
use std::io::{Read, Write};

// What is kept between two reads: `held` bytes of a line stand at the front of the text.
#[derive(Clone, Copy)]
struct Reading {
    keeper: Keeper,
    held: usize,
}

// Reads behind the bytes held. Gives how many there are then.
fn read_behind<R: Read>(input: &mut R, text: &mut [u8], held: usize) -> io::Result<usize>
    requires { held ≤ length text.old }
    ensures { IfOk result (λ size. (held ≤ size) × (size ≤ length text.old)) }
{
    let got = input::read_full(input, &mut text[held..])?;
    Ok(held + got)
}

// Answers the whole lines, and moves what is left to the front. Nothing is left to read behind a line that ended the program or
// that fills the text.
fn answer<W: Write>(
    output: &mut W,
    table: &mut [u8],
    keeper: Keeper,
    text: &mut [u8],
    size: usize,
    out: &mut [u8],
) -> io::Result<Option<Reading>>
    requires { Kept keeper table.old × ((size ≤ length text.old) × (length text.old * 42 + 126 ≤ length out.old)) }
    ensures { IfOk result (λ next. IfSome next (λ r. Kept r.keeper table.new × (r.held < length text.old))) }
{
    let done = keeper_text::printing::answer_lines(table, keeper, &text[..size], out);
    output.write_all(&out[..done.written])?;
    let Some(rest) = done.rest else {
        return Ok(None);
    };
    let held = size - rest.used;
    text.copy_within(rest.used..size, 0);
    if text.len() <= held {
        return Ok(None);
    }
    Ok(Some(Reading {
        keeper: rest.keeper,
        held,
    }))
}

// A last line that lacks its line feed gets one.
fn answer_last<W: Write>(
    output: &mut W,
    table: &mut [u8],
    keeper: Keeper,
    text: &mut [u8],
    held: usize,
    out: &mut [u8],
) -> io::Result<()>
    requires { Kept keeper table.old × ((held < length text.old) × (length text.old * 42 + 126 ≤ length out.old)) }
{
    if held < 1 {
        return Ok(());
    }
    text[held] = b'\n';
    answer(output, table, keeper, text, held + 1, out)?;
    Ok(())
}

// No input is so long that it uses up the turns.
fn answer_all<R: Read, W: Write>(
    input: &mut R,
    output: &mut W,
    table: &mut [u8],
    text: &mut [u8],
    out: &mut [u8],
) -> io::Result<()>
    requires { (55296 ≤ length table.old) × ((0 < length text.old) × (length text.old * 42 + 126 ≤ length out.old)) }
{
    let mut now = Reading {
        keeper: keeper_text::keeping::at_first(),
        held: 0,
    };
    for _ in 0..u64::MAX {
        let size = read_behind(input, text, now.held)?;
        if size <= now.held {
            return answer_last(output, table, now.keeper, text, now.held, out);
        }
        let Some(next) = answer(output, table, now.keeper, text, size, out)? else {
            return Ok(());
        };
        now = next;
    }
    Ok(())
}

// All of the input, with the table and both buffers made here.
fn main(rt: HostRuntime) -> io::Result<()> {
    let mut table = [0; 65536];
    let mut text = [0; 1536];
    let mut out = [0; 65536];
    let mut input = rt.reader();
    let mut output = io::writer(&rt);
    answer_all(&mut input, &mut output, &mut table, &mut text, &mut out)
}
