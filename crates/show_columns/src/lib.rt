// Numbers and names in columns of a text (put). Crate calls defines the columns (specs/Listing.antt, specs/Sheet.antt).
#![tactic(auto)]

pub mod put;
