// The delivery check: check_timeouts on the table of pending requests, with mark_retried of those retried, in one pass.
//
// Equal to `check_timeouts` and then `mark_all_retried` of the model (Delivery.antt, Check.antt). The table and the places of
// the retried requests are written, nothing else. The stamp decides for most records. The retries go out by the crate of
// that name.
#![tactic(auto)]

pub mod check;
