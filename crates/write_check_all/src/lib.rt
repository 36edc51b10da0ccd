// The eight flat lists taken term by term, all checks of them, and how many bytes their posting lists take. Read in this order:
//   walk    where the next term's name, postings and positions start
//   lists   every refusal but 13, in document 01's order, or the size; `measure_lists` is all of them
// Crate calls defines the checks (specs/Checks.antt), crate segment the bytes (specs/Written.antt).
#![tactic(auto)]

pub mod lists;
pub mod walk;
