// Rule 3, request_announced: one list of ids, or pairs of type and id, one list a type.
//
// Equal to `perform` of model/specs/Requests.antt. Ids that are neither pending nor stored enter the table of pending
// requests and are sent as one batch. With more than `most` requests pending then, the answer is Full. Only the table and
// commands are written. An id costs a search of the table and one of the stored pairs, then what mark_requested costs.
#![tactic(auto)]

mod asks;
pub mod by_type;
pub mod pairs;
pub mod request;
pub mod wanted;
