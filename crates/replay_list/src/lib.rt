// A stored list of calls, each with the answer that it must have (oracle/README.md has the formats): what the programs that replay one
// share. Read in this order:
//   fields   the numbers of a case, and the parts of its data
//   list     a list's head, the next case, the list's end
//   buffers  the lent buffers, before a call and after it
//   replies  the reply that a call must have
//   totals   what is counted
//   print    what is written
#![tactic(auto)]

pub mod buffers;
pub mod fields;
pub mod list;
pub mod print;
pub mod replies;
pub mod totals;
