// The answer to a question by a layout that fits the bytes: the calls that open a segment and the calls that are handed what opening it
// found share it. Nothing else is demanded of the bytes, so every answer stays inside them and inside the lent buffer; where the layout is
// that of the open segment, the answer is the question's. Read in this order:
//   lists    the documents that the lists of the names' terms have in common, counted before they are stored
//   names    the lists decoded, or known to decode; the rarest leads
//   layout   the names of a text, or two names
// specs/Promise.antt says what an answer by a layout is.
#![tactic(auto)]

pub mod layout;
pub mod lists;
pub mod names;
