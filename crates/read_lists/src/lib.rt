// Documents and posting lists checked whole, in document 01's order. Read in this order:
//   metadata   the documents
//   marks      cursors spread over the documents
//   lists      a posting list
// Crate segment defines what they decode to (specs/Metadata.antt, specs/Postings.antt). Crate read_many checks many lists at once, and
// leaves those that it is not sure of to this one.
#![tactic(auto)]

pub mod lists;
pub mod marks;
pub mod metadata;
