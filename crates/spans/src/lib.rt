// Spans of bytes: copied, tested for zeros and filled with them, moved within a slice, written over.
//
// Every contract gives the whole slice after it (`moved` of specs/Move.antt, `overwritten` of fields). Only the slice lent
// by `&mut` is written. All run at memory speed, many bytes a turn.
#![tactic(auto)]

pub mod copying;
pub mod moving;
