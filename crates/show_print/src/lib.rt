// Text written out: the listing (print), a bar's sheet (paper). Crates show_listing and show_sheet make the texts; no contract
// can speak of output.
#![tactic(auto)]

pub mod paper;
pub mod print;
