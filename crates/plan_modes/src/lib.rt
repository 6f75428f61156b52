// The plans of picks, progress, checks, ticks and lost peers (rules 1, 6 and 9).
//
// Each equals the plan of its name in model/specs/Steps.antt for every state with the header that it is given. Reads
// header, stalled set, peers and view, writes nothing, and costs the view rows that its rules read.
#![tactic(auto)]

pub mod picking;
pub mod progress;
pub mod ticks;
