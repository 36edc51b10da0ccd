// Bars from a MIDI file, the call (document 02, wishes 2 and 9): header and heading, the counting pass, 13, then the lists. Nothing is
// stored before every count is known and every buffer is long enough, so a refusal leaves all nine. Read in this order:
//   specs/Promise.antt   what the call promises, by the definitions of crate midi_bars
//   room                 13, the first buffer that is too short
//   store                the lists into buffers of exactly their lengths
//   import               the call
#![tactic(auto)]

pub mod import;
pub mod room;
pub mod store;
