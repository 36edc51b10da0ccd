// Directory entries and the header stored, of fixed width, over what the slice already holds. Read in this order:
//   numbers   numbers and byte strings stored
//   frame     an entry, the header
// Crate segment defines every byte (specs/Written.antt).
#![tactic(auto)]

pub mod frame;
pub mod numbers;
