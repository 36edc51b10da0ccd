// Demand 3 over a list of records: write, then ask exactly the bytes written (ask). specs/Promise.antt is the claim, which is that of crate
// claim_joint about the records taken apart.
#![tactic(auto)]

pub mod ask;
