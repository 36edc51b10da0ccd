// The calls on documents: document_lengths, document_len (documents). Crate calls defines what they answer (specs/Reads.antt);
// specs/Promise.antt here says what they leave in the lent buffers.
#![tactic(auto)]

pub mod documents;
