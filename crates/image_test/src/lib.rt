// Whether an image is well formed: number 2 of the refusals, exactly.
//
// `is_well_formed` equals `well_formed` of model/specs/Image.antt on every area of 65,536 bytes. Reads only. The header
// first, then one pass over each table and over what must be zero; the first part that does not fit ends the test.
#![tactic(auto)]

pub mod formed;
pub mod head;
pub mod once;
