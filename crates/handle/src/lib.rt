// A handle: what is kept of a segment that was checked once, so that later calls need not check it again. Read in this order:
//   handle     the record, the layout that it carries, and when a handle is used at all
//   batches    a batch of lists decoded at once where all are in order, else one by one
//   checking   the calls that make one: `open_once`, and `check`, which decodes every list too
// specs/Handles.antt says which handle these calls answer for which bytes, and what a caller may rely on who has it.
#![tactic(auto)]

pub mod batches;
pub mod checking;
pub mod handle;
