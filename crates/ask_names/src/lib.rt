// The names of a question: checked, resolved to the terms that they name, and the lists of these decoded. Read in this order:
//   question   kinds 12, 11 and 10 of a question
//   slots      Names: a name resolved, and the different terms that the names name
//   lists      the names of a text resolved; every different term's list decoded, in the order named
//   lead       the rarest list first
// Crate calls defines a question's checks and what its names decode to (specs/Questions.antt); specs/Steps.antt here has what the names
// resolve to, specs/Lists.antt what is done with their lists.
#![tactic(auto)]

pub mod lead;
pub mod lists;
pub mod question;
pub mod slots;
