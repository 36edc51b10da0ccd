// Demand 3 beside document 02, wish 5: write, then ask exactly the bytes written for the ranked answer (ask). specs/Demand.antt is the
// claim, in words: the documents whose own positions meet the phrase, each with the number of its own starts, the best first.
#![tactic(auto)]

pub mod ask;
