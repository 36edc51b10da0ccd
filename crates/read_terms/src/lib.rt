// Terms and the documents that have them. Read in this order:
//   find      a term found by its name where a layout fits the bytes, or its entry by index; its list decoded
//   together  many lists decoded at once, where all are in order
//   terms     the calls: df, docs_with_term; and decode_term, which the calls on positions share
// Crate calls defines what the calls answer (specs/Reads.antt); specs/Promise.antt here says what they leave in the lent buffer,
// specs/Together.antt what lists that were decoded together promise.
#![tactic(auto)]

pub mod find;
pub mod terms;
pub mod together;
