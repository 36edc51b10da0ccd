// The three rules in one document, over cursors at the positions of each name. Read in this order:
//   pass       a cursor advanced to a target, with the number of positions passed
//   tables     the cursors in a lent table
//   phrase     name i has the position start + i
//   starts     the starts of a phrase, counted
//   ordered    a rising chain, one position of each name in turn
//   unordered  a window that holds each name as often as it is named
// Every rule is one leap: the least start that no name has ruled out yet is brought to each name's cursor in turn; a name that is past it
// moves it on, and the names begin again. No start that all names would take is skipped. No list of occurrences is built, and no cursor
// goes back: each cursor reads its list once, so the time is linear in the bytes of the lists, however the positions lie. The phrase and
// the unordered rule share one law of the leap (proofs/Leap.antt); a chain's start depends on its first name (proofs/Chains.antt). The
// starts of a phrase are counted by one leap after the other, each from above the last start on (proofs/Counting.antt).
#![tactic(auto)]

pub mod ordered;
pub mod pass;
pub mod phrase;
pub mod starts;
pub mod tables;
pub mod unordered;
