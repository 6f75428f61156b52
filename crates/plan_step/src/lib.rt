// The plan of any call: messages (rule 7), control events (rule 8) and the steps by mode (rule 9).
//
// `plan_step` follows the model's plan, remaining requests, retries and evicted ids for every call (`Follows` of
// plan/specs/Plans.antt). Reads only, and costs what the plan of the call's kind costs.
#![tactic(auto)]

mod control;
mod events;
pub mod step;
pub mod wakes;
