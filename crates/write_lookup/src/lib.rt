// A document's length looked up by its id, over ids and lengths side by side. Read in this order:
//   lengths   the length, where the ids rise: at a hint, or else by binary search
//   hints     where to look first
// specs/Steps.antt says what it answers and rests on.
#![tactic(auto)]

pub mod hints;
pub mod lengths;
