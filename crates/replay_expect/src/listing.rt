// The lines of a list that ask for no call, and what is printed: a line for each stream, and how many there were.
use crate::replay::{Awaits, Fault, Replay};
use replay_text::areas::Areas;
use replay_text::line_words::Head;
use replay_text::words::Words;
use std::io;
use std::io::Write;

#[derive(Clone, Copy)]
pub struct Listing {
    pub replay: Replay,
    // lines read
    pub line: u64,
    // the line at which the stream differs, and what does
    pub fault: Option<(u64, Fault)>,
    // streams begun, streams that differ
    pub streams: u64,
    pub differ: u64,
}

impl Listing {
    // Before the first line.
    pub fn at_first() -> Listing {
        Listing {
            replay: Replay::at_first(),
            line: 0,
            fault: None,
            streams: 0,
            differ: 0,
        }
    }

    // One line more.
    pub fn counted(self) -> Listing {
        Listing {
            line: self.line.wrapping_add(1),
            ..self
        }
    }

    // Where the stream stands behind this line.
    pub fn held(self, took: Result<Replay, Fault>) -> Listing {
        match took {
            Ok(replay) => Listing { replay, ..self },
            Err(fault) => Listing {
                fault: Some((self.line, fault)),
                ..self
            },
        }
    }

    // What is printed behind a stream's name. A stream that ends while a call awaits its answer has not said all.
    pub fn end_stream<W: Write>(self, out: &mut W) -> io::Result<Listing> {
        if self.streams == 0 {
            return Ok(self);
        }
        match self.fault {
            Some((line, fault)) => writeln!(out, "line {line} {fault}")?,
            None => {
                if self.replay.awaits == Awaits::Call {
                    out.write_all(b"as expected\n")?;
                    return Ok(self);
                }
                out.write_all(b"ends within a call\n")?;
            }
        }
        Ok(Listing {
            differ: self.differ.wrapping_add(1),
            ..self
        })
    }

    // A stream's first line, which has its name.
    fn begin_stream<W: Write>(
        self,
        out: &mut W,
        areas: &mut Areas,
        line: &[u8],
    ) -> io::Result<Listing> {
        let next = self.end_stream(out)?;
        if 7 < line.len() {
            out.write_all(&line[7..])?;
        }
        out.write_all(b": ")?;
        areas.forget();
        Ok(Listing {
            replay: Replay {
                calls: self.replay.calls,
                ..Replay::at_first()
            },
            fault: None,
            streams: self.streams.wrapping_add(1),
            ..next
        })
    }

    // A line that asks for no call, or one behind a difference, its words read into the room of those before.
    pub fn take_with<W: Write>(
        self,
        out: &mut W,
        areas: &mut Areas,
        words: &mut Words,
        head: Option<Head>,
        line: &[u8],
    ) -> io::Result<Listing> {
        if head == Some(Head::Stream) {
            return self.begin_stream(out, areas, line);
        }
        if matches!(line, [] | [b'#', ..]) | self.fault.is_some() {
            return Ok(self);
        }
        let took = match head {
            Some(head) => crate::expecting::take_with(areas, words, head, line, self.replay),
            None => Err(Fault::Form),
        };
        Ok(self.held(took))
    }

    // The same of one line alone.
    pub fn take<W: Write>(
        self,
        out: &mut W,
        areas: &mut Areas,
        head: Option<Head>,
        line: &[u8],
    ) -> io::Result<Listing> {
        self.take_with(out, areas, &mut Words::none(), head, line)
    }

    // The last line that is printed.
    pub fn print_total<W: Write>(self, out: &mut W) -> io::Result<()> {
        let streams = self.streams;
        let calls = self.replay.calls;
        let differ = self.differ;
        writeln!(
            out,
            "{streams} streams, {calls} calls, {differ} not as expected"
        )
    }
}
