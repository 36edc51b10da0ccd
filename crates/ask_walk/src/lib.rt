// The documents that meet a question, among those that the lists of its terms hold. Read in this order:
//   document     the rule in one document, and how often the phrase fits there
//   tables       the cursors over the lists, in a lent table
//   leap         the next document that all lists hold
//   walk         the documents that all lists hold, and of these the ones that meet the rule
//   walk_starts  those that have the phrase, and beside each how often
#![tactic(auto)]

pub mod document;
pub mod leap;
pub mod tables;
pub mod walk;
pub mod walk_starts;
