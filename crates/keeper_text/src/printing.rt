// What program `keeper` prints, line after line.
//
// `print_all` prints what `printed` of specs/Printed.antt says of a whole input. `answer_lines` and `answer_last` do the same
// for an input that comes in pieces.
//
// Table and output are written, so what holds of them is a clause, and the place to write stands beside the output.
ghost use Rattle.std.specs.Prelude.{◌≡◌, ◌+◌, ◌*◌, ◌≤◌, length};
ghost use Rattle.fields.specs.Overwrite.{overwritten};
ghost use Rattle.keeper_text.specs.Kept.{keeping_in, Kept};
ghost use Rattle.keeper_lines.specs.Line.{next_line};
ghost use Rattle.keeper_text.specs.Printed.{lines_of, printed_from, printed};
ghost use Rattle.keeper_text.specs.Progress.{Prints};
ghost use Rattle.model.specs.Layout.{table_size};

use crate::keeping::{Keeper, answer_line};
use keeper_lines::lines::line_end;

// What some text left: the keeper then, and how much of the text was answered.
#[derive(Clone, Copy)]
pub struct Rest {
    pub keeper: Keeper,
    pub used: usize,
}

// How far some text was answered.
#[derive(Clone, Copy)]
pub struct Progress {
    pub written: usize,
    // where the text begins that was not answered; a line that ended the program stands there
    pub used: usize,
    // nothing where a line ended the program
    pub rest: Option<Rest>,
}

// Answers the whole lines of `text` up to one that ends the program. What stands behind the last line feed is left: an iterator
// over lines would give it as one more, and not say where it begins.
pub fn answer_lines(table: &mut [u8], keeper: Keeper, text: &[u8], out: &mut [u8]) -> Progress
    requires { Kept keeper table.old × (length text.now * 42 + 126 ≤ length out.old) }
    ensures { Prints (keeping_in keeper table.old) text.now out.old result table.new out.new }
{
    let mut now = keeper;
    let mut from = 0;
    let mut at = 0;
    let mut end = line_end(text, from);
    while end < text.len() {
        let Some((next, place)) = answer_line(table, now, &text[from..end], out, at) else {
            return Progress {
                written: at,
                used: from,
                rest: None,
            };
        };
        now = next;
        at = place;
        from = end + 1;
        end = line_end(text, from);
    }
    Progress {
        written: at,
        used: from,
        rest: Some(Rest {
            keeper: now,
            used: from,
        }),
    }
}

// The last line where it lacks its line feed. Gives where its answer ends.
pub fn answer_last(
    table: &mut [u8],
    keeper: Keeper,
    text: &[u8],
    out: &mut [u8],
    at: usize,
) -> usize
    requires kept { Kept keeper table.old × (at + 126 ≤ length out.old) }
    requires text_value { next_line text.now ≡ text.now }
    ensures out_after { out.new ≡ overwritten at (printed_from (keeping_in keeper table.old) (lines_of text.now)) out.old }
    ensures value { result ≡ at + length (printed_from (keeping_in keeper table.old) (lines_of text.now)) }
{
    if text.is_empty() {
        return at;
    }
    match answer_line(table, keeper, text, out, at) {
        Some((_, place)) => place,
        None => at,
    }
}

// What the program prints, its whole input at hand.
pub fn print_all(table: &mut [u8], text: &[u8], out: &mut [u8]) -> usize
    requires { (table_size ≤ length table.old) × (length text.now * 42 + 126 ≤ length out.old) }
    ensures out_after { out.new ≡ overwritten 0 (printed text.now) out.old }
    ensures value { (result ≡ length (printed text.now)) × (result ≤ length out.new) }
{
    let keeper = crate::keeping::at_first();
    let done = answer_lines(table, keeper, text, out);
    let Some(rest) = done.rest else {
        return done.written;
    };
    answer_last(table, rest.keeper, &text[rest.used..], out, done.written)
}
