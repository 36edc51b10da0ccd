// The bars of a MIDI file (document 02): what the file's hits become, the lists that the writer takes, and the velocities beside the
// positions. No code. Read in this order:
//   specs/Bars.antt          the bars, sounds, postings and positions of the hits, and the eight lists
//   specs/Loudness.antt      the velocities, of equal hits the loudest
//   specs/Imports.antt       what is answered for a file
//   specs/Words.antt         what the file plays, in the customer's words
//   specs/Claims.antt        what is claimed of the lists
//   specs/LoudClaims.antt   what is claimed of the velocities

#![tactic(auto)]
