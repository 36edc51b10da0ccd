// Cursors over the documents, the postings of a list and the positions of a posting. They demand nothing of the bytes: where the next
// element would be refused, none remains. So no function below the checks needs a condition on the bytes; after a list was checked, its
// cursor walks the checked list, and ids and positions rise by construction. Read in this order:
//   singles     numbers of one byte each, told by one word: the quick way of the modules below
//   values      gaps that rise: how posting ids and positions are stored
//   documents   one document read, and a cursor over the documents of the metadata
//   postings    a cursor over the postings of a list
//   positions   a cursor over the positions of a posting
// A cursor is no iterator: it holds no borrow, is kept in tables by value and sought ahead, so loops over it advance it with the bytes.
// specs/Held.antt defines what bytes hold element by element, specs/Steps.antt what a cursor has still to walk, specs/Singles.antt what is
// told by one word.
#![tactic(auto)]

pub mod documents;
pub mod positions;
pub mod postings;
pub mod singles;
pub mod values;
