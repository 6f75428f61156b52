// The commands that a step writes, one behind another and numbered by batch; a list of ids in runs of at most 400.
//
// What is written are the bytes of `commands_of` (model/specs/Requests.antt), from a place on; no other byte is touched. A
// command costs a copy of its ids. specs/ also say what a table of pending requests stands for: records, ids rising, at the
// front of a slice.
#![tactic(auto)]

pub mod chunk;
pub mod counting;
pub mod kind;
pub mod pending;
pub mod place;
pub mod tracker;
pub mod writing;
