// A bar on paper (document 02, wish 3). Read in this order:
//   bar     the bar that is asked for: known, and of at most 64 steps
//   sheet   every list decoded and the sheet measured, then drawn: the call bar_sheet
// Crate calls defines the sheet (specs/Sheet.antt); specs/Promise.antt here says what is left in the lent buffer.
#![tactic(auto)]

pub mod bar;
pub mod sheet;
