// The first pass over a MIDI file: how many bars there are, and how many postings and positions each sound has. Read in this order:
//   specs/Tallies.antt   what is kept from hit to hit
//   count                the pass
//   specs/Claims.antt    that it comes to the numbers of the lists (crate midi_bars)
#![tactic(auto)]

pub mod count;
