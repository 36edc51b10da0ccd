// The ranked phrase search on a segment that it opens: phrase_match_ranked (questions). Read in this order:
//   lists      the documents that the lists of the names' terms have in common, counted before they are stored, then ranked
//   names      the lists decoded; the rarest leads
//   questions  the call
// Crate calls defines what the call answers (specs/Ranked.antt, by the order of specs/Order.antt); specs/Promise.antt here says what it
// leaves in the two lent buffers.
#![tactic(auto)]

pub mod lists;
pub mod names;
pub mod questions;
