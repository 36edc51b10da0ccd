// Up to 128 posting lists checked side by side over one pass of the document metadata: a list checked by itself walks the metadata from its
// first document. The answer is "surely in order" or "not sure"; where it is not sure, read_lists::lists checks list by list and says the
// refusal. So one direction is promised: a list that is surely in order decodes. Read in this order:
//   specs/Promise.antt   what "surely in order" promises
//   short                a short posting told by one word
//   postings             one posting of a list passed
//   lengths              the lengths of a block of documents, by id
//   lists                all lists through one block after the other
#![tactic(auto)]

pub mod lengths;
pub mod lists;
pub mod postings;
pub mod short;
