// Rules 4 and 5 on the bytes of a view: which sections of the window are missing, and how far the blocks are complete.
//
// Equal to `window_within` and `advance_downloaded_height` of model/specs/Sections.antt. The view is read in place; only the
// pairs that rule 4 lists are written. A height costs a few byte reads, wherever its row is. Each rule stops where its
// definition does, and says whether every height that it read has a row.
#![tactic(auto)]

pub mod downloaded;
pub mod rows;
pub mod window;
