// Demand 3 where the segment is checked once and then asked with its handle (ask): the claim of crate claim_joint, word for word
// (claim_joint/specs/Demand.antt), over write, check, ask. What the check answered for the bytes is asked with, and then the question is
// answered as by the plain call. That a segment which was written is answered level 2, so that the handle is used and no list is decoded
// again, is claimed in claim_joint/specs/Checked.antt.
#![tactic(auto)]

pub mod ask;
