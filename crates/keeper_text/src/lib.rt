// What the program `keeper` prints of its input, line after line, whole or in pieces.
//
// `answer_line` equals `answered` of specs/Keeping.antt on every line, `print_all` prints `printed` of specs/Printed.antt.
// The table of pending requests and the output are the caller's, and nothing else is written. A request costs a search of
// the table, a check one pass over it.
#![tactic(auto)]

pub mod keeping;
pub mod printing;
