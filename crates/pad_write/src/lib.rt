// The pad written out as a segment, without a copy of its names and with the lists of one sound at a time. Read in this order:
//   measure   the sounds checked and measured
//   store     the sounds stored
//   write     the call
// Crate pad_words defines what the call answers (specs/Calls.antt); specs/Promise.antt here says what it leaves in the lent slice.
#![tactic(auto)]

pub mod measure;
pub mod store;
pub mod write;
