// What a replayed call is made of: the words of its lines, its numbers, the areas that it is lent, and what it left of
// them.
//
// For test programs: proved to be safe and to end, no more. Of the core it takes leaves alone: what is compared must not
// come from what it is compared with. Writes the areas that it is lent, and costs one pass over a line.
#![tactic(auto)]

pub mod areas;
pub mod line_words;
pub mod numbers;
pub mod words;
