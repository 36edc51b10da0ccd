// A bar on paper as one claim about the functions: write, then show a bar of exactly the bytes written (show). specs/Promise.antt is the
// claim, in the words of crate claim_sheet: the sheet is the bar that was handed in, on paper.
#![tactic(auto)]

pub mod show;
