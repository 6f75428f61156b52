// A list of calls in the text form of host/fixed, replayed: each call is made through the exported entries, and its answer,
// its commands and both areas are held against what the list says.
//
// For test programs: proved to be safe and to end, no more. Reads standard input and prints; a list has at most 1 MiB.
#![tactic(auto)]

mod calling;
pub mod list;
mod mapping;
mod stream;
