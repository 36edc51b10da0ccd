// The C interface's one reply (reply): what it has for each call's answer, and the functions that make it of that answer.
// specs/Replies.antt says what a reply has. Crate pstp exports the calls.
#![tactic(auto)]

pub mod reply;
