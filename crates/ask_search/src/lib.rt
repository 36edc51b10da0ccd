// The search: phrase_match_strs, near_match, near_match_terms_strs (questions), each on a segment that it opens; crate ask_answer finds
// the answer. Crate rules has the rules as the customer says them; crate calls defines what the calls answer (specs/Questions.antt);
// specs/Promise.antt here says what they leave in the lent buffer.
#![tactic(auto)]

pub mod questions;
