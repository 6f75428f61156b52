// Tables: entries of one width at the front of a byte slice.
//
// An edit costs one move of the bytes behind it, a filter one pass. Every edit gives the whole slice (`replaced` of
// fields): the entries as a list, zero where entries were, and the bytes behind as they were. Nothing but that slice is
// written.
#![tactic(auto)]

pub mod edit;
pub mod keep;
