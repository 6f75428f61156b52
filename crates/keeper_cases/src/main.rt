// Stored inputs of the program `keeper` and what it prints of each.
//
// The input is a list of cases: `%`, the case's name to the end of the line, then the case's input up to the next `%`.
// For each the name is printed, and then what `keeper` prints.
#![tactic(auto)]

use std::io;
use std::io::Write;

// What the program prints of an input of at most 1,536 bytes.
fn print<W: Write>(output: &mut W, input: &[u8]) -> io::Result<()> {
    if input.len() > 1536 {
        return Ok(());
    }
    let mut table = [0; 65536];
    let mut out = [0; 65536];
    let end = keeper_text::printing::print_all(&mut table, input, &mut out);
    output.write_all(&out[..end])
}

// One case, from its name on.
fn case<W: Write>(output: &mut W, text: &[u8]) -> io::Result<()> {
    let end = input::find(text, 0, b'\n');
    output.write_all(b"%")?;
    output.write_all(&text[..end])?;
    output.write_all(b"\n")?;
    if end < text.len() {
        let from = end + 1;
        print(output, &text[from..])?;
    }
    Ok(())
}

// All cases, each behind its `%`.
fn cases<W: Write>(output: &mut W, text: &[u8]) -> io::Result<()> {
    for case_text in text.split(|byte| *byte == b'%').skip(1) {
        case(output, case_text)?;
    }
    Ok(())
}

// The list from standard input.
fn main(rt: HostRuntime) -> io::Result<()> {
    let mut text = [0; 65536];
    let size = input::read_full(&mut rt.reader(), &mut text)?;
    cases(&mut io::writer(&rt), &text[..size])
}
