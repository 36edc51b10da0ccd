// The pad's words (document 02, wishes 6 and 9): how they hold a map from id to bar, which words are a pad, where a bar begins. specs/
// defines all of it: Words (the layout), Whole (kind 20), Calls (what the calls that test for it answer); crate pad_map has the map
// itself. Code, in this order:
//   layout   the numbers of the layout
//   check    whether the words are a pad
//   place    where a bar begins, or where it would
// Crate pad_read reads a bar back and answers the number of hits, pad_record saves and erases, pad_write writes out.
#![tactic(auto)]

pub mod check;
pub mod layout;
pub mod place;
