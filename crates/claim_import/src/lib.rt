// Bars from a MIDI file as one claim about the functions: import, write, then ask a phrase of exactly the bytes written (ask).
// specs/Phrases.antt is the claim, in words: the bars that are listed are those in which the file plays the phrase.
#![tactic(auto)]

pub mod ask;
