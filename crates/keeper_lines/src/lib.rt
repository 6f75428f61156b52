// The lines that the program `keeper` reads, and the rows that it prints.
//
// `parse` equals `line_of` of specs/Line.antt on every byte list, `put_row` writes `row` of specs/Row.antt from an index on
// and nothing else. Each byte of a line is read at most three times.
#![tactic(auto)]

mod field;
pub mod lines;
pub mod numerals;
pub mod rows;
