// The calls that read, with the handle of a segment that was checked once: each as the plain call beside which it stands, without opening
// the segment again. A handle that cannot be used leads to the plain call. Read in this order:
//   named       the list of a name: found by the handle's layout, decoded where nobody has decoded it yet
//   documents   document_len_checked
//   terms       df_checked, docs_with_term_checked
//   postings    term_postings_checked, positions_checked
// specs/Promise.antt says what they promise: with the bytes' own handle the same as the plain calls, with any other what they leave alone.
#![tactic(auto)]

pub mod documents;
pub mod named;
pub mod postings;
pub mod terms;
