// The works that ask a peer (plan::Work), any work by its value (`perform`), and a plan carried out up to its sync info
// (`carry`).
//
// They work on the region of an image, be it the state area's own or a copy's, and on room for commands; nothing else is
// written. Each equals `worked_by` of work/specs/Worked.antt. Where there is no room the answer is Full, and what then
// stands in region and commands is of no use. What is asked for costs what request_announced says.
#![tactic(auto)]

pub mod asks;
pub mod carry;
pub mod fresh;
pub mod ids;
pub mod orphans;
pub mod perform;
pub mod sections;
