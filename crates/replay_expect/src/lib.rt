// What the lines of a stream say of its calls, held against what the calls came to, and what is printed of that.
//
// For test programs: proved to be safe and to end, no more. Writes the areas that it is lent, and prints. A call costs a
// comparison of every number and of every byte of both areas.
//
// Areas, words and replay come one by one, since each function writes others of them.
#![tactic(auto)]

mod answer;
pub mod expecting;
mod given;
mod left;
pub mod listing;
pub mod made;
mod maps;
pub mod replay;
mod settle;
