// The listing of a segment as text (document 01, "A listing program", and document 02, wish 1): a line for the counts, one for each
// document, one for each term; or one line for a refusal (list). Crate calls defines the text (specs/Listing.antt); specs/Claims.antt here
// says how long it can be.
#![tactic(auto)]

pub mod list;
