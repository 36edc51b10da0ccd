// The lists of a MIDI file's bars that need no further pass over the file. Read in this order:
//   specs/Heads.antt    the sounds, by the counts of the counting pass (crate midi_count)
//   sums                running sums of a table, and how many sounds there are
//   heads               bars' ids and lengths; sounds' names, ends of names and counts of postings
//   specs/Claims.antt   that these are the lists of the hits (crate midi_bars)
#![tactic(auto)]

pub mod heads;
pub mod sums;
