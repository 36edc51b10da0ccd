// The second pass over a MIDI file: each hit stored in the part of the lists that belongs to its sound. Read in this order:
//   specs/Stores.antt   what is stored for a hit, and where
//   fill                the pass
//   specs/Claims.antt   that it comes to the lists (crate midi_bars)
#![tactic(auto)]

pub mod fill;
