// Matches ranked in place: ids and counts side by side, the best first. Read in this order:
//   order   which of two matches stands before the other
//   heap    a heap of matches, the one that is listed last on top
//   rank    the sort
// The sort is by a heap, since its time grows with n log n whatever the order before, and it asks for no room and calls itself nowhere.
// Only `order` looks into ids and counts; what is claimed of the order is in crate `calls` (specs/Order.antt, proofs/Ordered.antt).
#![tactic(auto)]

pub mod heap;
pub mod order;
pub mod rank;
