// Writing a segment from eight flat lists. Read in this order:
//   sizes    how many bytes the metadata takes
//   write    the call
// Crate calls defines what the call answers (specs/Writing.antt); specs/Promise.antt here says what it leaves in the lent slice.
#![tactic(auto)]

pub mod sizes;
pub mod write;
