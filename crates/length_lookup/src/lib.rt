// A length looked up in a caller's own lists of ids and lengths (document 02, wish 8). Unlike the writer's lookup (crate write_lookup), it
// trusts nothing: the whole list of ids is tested first. Read in this order:
//   check    the lists' refusals: 12, 11, 21
//   lookup   the call, length_of
// specs/Lookup.antt defines what it answers, specs/Words.antt says it in words, and specs/Claims.antt that both are the same.
#![tactic(auto)]

pub mod check;
pub mod lookup;
