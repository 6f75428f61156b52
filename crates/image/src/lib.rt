// The header of the state area as a value: read, written, and that of a fresh core.
//
// `read_head` equals `head_in` of specs/Heads.antt, `write_head` writes the header's 74 bytes and no other, `open` writes
// the whole area, the image of a fresh core (model/specs/Image.antt). Some twenty loads or stores, for an opening also a
// fill of the area.
#![tactic(auto)]

pub mod head;
pub mod mode;
pub mod opening;
pub mod writing;
