// A sound's line of a sheet (document 02, wish 3): its name, the bar's 64 steps, how many hits it has there. Crate calls defines the line
// (specs/Sheet.antt). A cursor over the hits is sought from step to step, so that no list of them is held. Read in this order:
//   line                the mark of one step, the 64 steps, the line
//   specs/Steps.antt    a step's mark by a cursor; proofs/Marks.antt: it is the mark that crate calls defines
//   proofs/Lines.antt   how long a line is, for those who need room for it
#![tactic(auto)]

pub mod line;
