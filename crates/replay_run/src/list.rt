// A list read from standard input and replayed, line after line.
ghost use Rattle.std.specs.Prelude.{◌≡◌, length};

use replay_expect::listing::Listing;
use replay_text::areas::Areas;
use replay_text::line_words::Head;
use replay_text::words::Words;
use std::io;
use std::io::{Read, Write};

// A NUL in front of these words, with nothing behind, stands for the space behind them.
fn read_as(line: &[u8]) -> &[u8] {
    match line {
        b"\x00?" => b"? ",
        b"\x00%" => b"% ",
        b"\x00map" => b"map ",
        _ => line,
    }
}

// All lines of a list. In one function: one for a line would touch the pages of a call's areas at every line.
fn lines<W: Write>(out: &mut W, areas: &mut Areas, text: &[u8]) -> io::Result<Listing> {
    let mut listing = Listing::at_first();
    let mut words = Words::none();
    for line in text.split(|byte| *byte == b'\n') {
        let line = read_as(line);
        let next = listing.counted();
        listing = match Head::of(line) {
            Some(Head::Call(call)) if next.fault.is_none() => {
                let took = crate::stream::take_call(areas, &mut words, call, line, next.replay);
                next.held(took)
            }
            head => next.take_with(out, areas, &mut words, head, line)?,
        };
    }
    listing.end_stream(out)
}

// Room for a list. It has a function of its own, so that its length is known without counting it out.
fn room() -> [u8; 1048576]
    ensures { 1048576 ≡ length result }
{
    [0; 1048576]
}

// Replays a list of at most 1,048,576 bytes. A read or a write that fails ends it.
pub fn replay<R: Read, W: Write>(input: &mut R, out: &mut W) -> io::Result<()> {
    let mut areas = Areas::empty();
    let mut text = room();
    let size = input::read_full(input, &mut text)?;
    let listing = lines(out, &mut areas, &text[..size])?;
    listing.print_total(out)
}
