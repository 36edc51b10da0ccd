// The reading room: what every call of the library answers, refusals included, as definitions that compute. There is no code here. Read
// specs/ in this order, after the specs/ of crates segment (the format) and rules (the three rules):
//   Replies      a reply and a lent buffer, made of what a definition answers
//   Lookups      a name's check; the postings of a term, the positions of a document
//   Reads        the calls that read: documents, df, postings, positions
//   Questions    the calls that ask: a question's checks, its answer
//   Kept         a lent buffer after a call, whatever it was asked of
//   Whole        a segment that opens, and of which every list decodes
//   Given        what is handed to the writer: eight flat lists, and the documents and terms that they stand for
//   Checks       the writer's refusals, in document 01's order
//   Acceptance   when document 01 names no refusal, in words
//   Writing      the calls that write
//   Sizes        how many bytes a segment takes
//   Listing      the text of the listing
//   Sheet        the text of a sheet, a bar on paper
//   Claims       what is claimed of these definitions; proofs/ proves it
// What each call promises is in specs/Promise.antt of the crate that has the call.

#![tactic(auto)]
