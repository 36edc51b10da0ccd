// The segment format (document 01), read and written form side by side. specs/ is the place to start: it defines the whole format. The code
// here is what every crate above shares. Read in this order:
//   refusal    why a call refuses, and the three numbers that a caller in C is told
//   replies    what the calls answer where they accept
//   ids        document ids and token positions, two types that do not mix
//   fixed      numbers of fixed width, little-endian
//   names      equality and byte order of names
//   texts      several names in one text
// Crates read_lists and read_open check a segment's bytes, crates write_* write them.
#![tactic(auto)]

pub mod fixed;
pub mod ids;
pub mod names;
pub mod refusal;
pub mod replies;
pub mod texts;
