// The plans of messages: announced ids and sync infos (rule 7).
//
// Each equals the definition of its name in model/specs/Events.antt and Steps.antt, a plan for every state with the header
// that it is given. Reads header, numbers, peers and view, writes nothing, and costs the view rows that rule 4 reads where
// it leads to synced.
#![tactic(auto)]

pub mod events;
pub mod messages;
