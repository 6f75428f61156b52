// delivery.rs on the region of an image, be it the state area's own or a copy's: pending records, ids rising, at its low
// end, evicted ids at its high end.
//
// Received, evicted, purged and orphaned ids: each function equals the definition of its name in model/specs/Delivery.antt.
// In `ages` is the mean age of what is pending, as MeanAge.antt has it. mark_requested and check_timeouts are crates of their
// own. Only the region is written, and what is removed is zero again. A list of n ids costs n log n comparisons and one pass
// over the table.
#![tactic(auto)]

pub mod ages;
pub mod evict;
mod marks;
pub mod orphans;
pub mod purge;
pub mod received;
