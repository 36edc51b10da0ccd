// The rules of demand 3 in one document: a phrase, ordered near, unordered near. specs/ defines them, in words and as tests that compute,
// and claims that the two agree. The only code is the rule as a value (rule); crate ask_match tests the rules over cursors.
#![tactic(auto)]

pub mod rule;
