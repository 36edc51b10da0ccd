// The functions of the C interface (include/pstp.h), which crate pstp_c exports: one for each call of document 01, one for the writer over
// records, and one for each call of document 02, each a thin call of the function behind it, and one reply for all (crate c_reply). Two
// calls answer a handle, which eight others take. Read in this order:
//   read           open and the read calls
//   ask            the searches
//   handles        segments checked once, and the calls with a handle
//   write          the writer
//   records        the writer over records
//   midi           bars from MIDI files
//   show           a bar on paper
//   lookup         a length in a caller's own lists
//   pad            a pad to record on
// The promises are those of the calls behind.
#![tactic(auto)]

pub mod ask;
pub mod handles;
pub mod lookup;
pub mod midi;
pub mod pad;
pub mod read;
pub mod records;
pub mod show;
pub mod write;
