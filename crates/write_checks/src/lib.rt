// The checks of what is handed to the writer, one thing at a time. Read in this order:
//   shape     kinds 12 and 11: how long the lists are, and how they fit together
//   check     documents, a position, a name
//   measure   a posting with its positions, and how many bytes it takes; crate write_check_all takes the lists through all of them
// Crate calls defines what is handed in and each check (specs/Given.antt, specs/Checks.antt), crate segment the bytes (specs/Written.antt).
#![tactic(auto)]

pub mod check;
pub mod measure;
pub mod shape;
