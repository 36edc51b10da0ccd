// The lists that the writer takes, made from a pad that is whole. All of them at once would not fit on the stack, so the postings are made
// one sound at a time: each bar's hits stand by sound, and a cursor a bar remembers which of them are done. Read in this order:
//   specs/Steps.antt   what stands in the lists afterwards
//   documents          ids and lengths of the bars
//   sound              the postings of one sound, with their positions
#![tactic(auto)]

pub mod documents;
pub mod sound;
