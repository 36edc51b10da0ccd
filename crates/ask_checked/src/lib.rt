// The search with a handle: phrase_match_strs_checked, near_match_checked, near_match_terms_strs_checked (questions), each beside the call
// that opens the segment. A handle is used where its layout fits the bytes; where it does not, the plain call answers.
// specs/Promise.antt says what they promise for any bytes and any handle.
#![tactic(auto)]

pub mod questions;
