// Opening a segment (document 01): every check before the posting lists, in document 01's order. Read in this order:
//   header        the header, the four sections' ranges; whether a layout that is handed in fits
//   directory     terms: checked, and found by name
//   open_segment  the calls: `open`, and `open_layout` for the calls of other crates
// Crate segment defines what opening answers (specs/Opening.antt); specs/Opened.antt here says what callers may rely on after it, and when
// a layout that is handed in fits; specs/Layouts.antt which layout the header's numbers make.
#![tactic(auto)]

pub mod directory;
pub mod header;
pub mod open_segment;
