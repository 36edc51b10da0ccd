// The writer's entry over a list of records, id and length. Read in this order:
//   exchange  records and two lists of numbers exchanged, index by index
//   write     the entry
// Crate calls defines what the entry answers (specs/Writing.antt); specs/Promise.antt here says what it leaves in everything that was lent.
#![tactic(auto)]

pub mod exchange;
pub mod write;
