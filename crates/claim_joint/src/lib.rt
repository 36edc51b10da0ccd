// Demand 3 as one claim about the functions: write, then ask exactly the bytes written (ask). specs/Demand.antt is the claim, in words;
// specs/Own.antt defines a document's own positions in the lists handed in. specs/Checked.antt claims that what was written checks, so that
// it has a handle of level 2. Crate cases has worked cases.
#![tactic(auto)]

pub mod ask;
