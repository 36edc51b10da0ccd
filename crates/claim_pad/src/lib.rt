// The pad as a map, claimed of the promises of its calls, and writing out with the search as one claim about the functions (ask). To read:
// specs/Sequences.antt, after any calls on any pad every answer was the map's and the words hold the map; specs/Back.antt, what was saved
// is read back; specs/Counter.antt, the number on the display is the sum over the bars held; specs/Phrases.antt, a phrase put to what was
// written lists the bars whose own hits meet it; specs/Written.antt, when a pad is written; specs/Promise.antt, what the call that writes
// and asks promises; specs/Claims.antt and specs/Refusals.antt, what is claimed beside it of writing out and of refusals.
#![tactic(auto)]

pub mod ask;
