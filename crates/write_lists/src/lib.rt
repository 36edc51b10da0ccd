// Metadata and posting lists stored: numbers of variable width, each the gap to the one before (put). Crate segment defines every byte
// (specs/Written.antt).
#![tactic(auto)]

pub mod put;
