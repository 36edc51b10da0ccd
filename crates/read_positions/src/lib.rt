// The calls that list the positions of a term: term_postings, positions (postings). Crate calls defines what they answer
// (specs/Reads.antt); specs/Promise.antt here says what they leave in the lent buffers.
#![tactic(auto)]

pub mod postings;
