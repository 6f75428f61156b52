// What a call is lent, known to fit: ids, stored pairs and a view, each with what document 01 asks of it as ghost fields.
//
// Whoever holds one need not ask again. A list is tested in `refusals`, and made one of these where the tests have passed. No
// code.
#![tactic(auto)]

pub mod ids;
pub mod pairs;
pub mod view;
