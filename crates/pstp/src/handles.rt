// Segments checked once, and the calls with a handle: each beside the call of its name that opens the segment itself.
ghost use Rattle.std.specs.Prelude.{◌≡◌};
ghost use Rattle.rules.specs.Kinds.{near_rule};
ghost use Rattle.handle.specs.Handles.{opened_once, checked_once};
ghost use Rattle.read_checked.specs.Promise.{LengthChecked, DfChecked, DocsChecked, PostingsChecked, PositionsChecked};
ghost use Rattle.ask_checked.specs.Promise.{TextChecked, TwoChecked};
ghost use Rattle.c_reply.specs.Replies.{Replied, length_reply, frequency_reply, counted_reply, listed_reply};

use ask_checked::questions::{
    near_match_checked, near_match_terms_strs_checked, phrase_match_strs_checked,
};
use c_reply::reply::{Reply, of_counted, of_doc_freq, of_length, of_listed};
use handle::checking::{check, open_once};
use handle::handle::Handle;
use read_checked::documents::document_len_checked;
use read_checked::postings::{positions_checked, term_postings_checked};
use read_checked::terms::{df_checked, docs_with_term_checked};
use rules::rule::Rule;
use segment::ids::DocId;

// The handle of a segment that opens, at level 1; or the refusal.
pub fn pstp_open_once(bytes: &[u8]) -> Handle
    ensures { result ≡ opened_once bytes.now }
{
    open_once(bytes)
}

// The handle of a segment that opens and of which every list decodes, at level 2; or the first refusal: of opening, then of the lists in
// the directory's order.
pub fn pstp_check(bytes: &[u8]) -> Handle
    ensures { result ≡ checked_once bytes.now }
{
    check(bytes)
}

// first: 1, and second: the document's length; 0 and 0 where it is unknown.
pub fn pstp_document_len_checked(bytes: &[u8], handle: Handle, id: u32) -> Reply
    ensures { Replied length_reply (λ a. LengthChecked bytes.now handle id a) result }
{
    of_length(document_len_checked(bytes, handle, DocId(id)))
}

// first: the number of documents that contain the term, as the directory has it; 0 for an unknown term.
pub fn pstp_df_checked(bytes: &[u8], handle: Handle, name: &[u8]) -> Reply
    ensures { Replied frequency_reply (λ a. DfChecked bytes.now handle name.now a) result }
{
    of_doc_freq(df_checked(bytes, handle, name))
}

// first: how many documents; their ids, rising.
pub fn pstp_docs_with_term_checked(
    bytes: &[u8],
    handle: Handle,
    name: &[u8],
    ids: &mut [u32],
) -> Reply
    ensures { Replied counted_reply (λ a. DocsChecked bytes.now handle name.now ids.old a ids.new) result }
{
    of_counted(docs_with_term_checked(bytes, handle, name, ids))
}

// first: postings; second: positions; ids, position counts and positions in three buffers.
pub fn pstp_term_postings_checked(
    bytes: &[u8],
    handle: Handle,
    name: &[u8],
    ids: &mut [u32],
    counts: &mut [u32],
    places: &mut [u32],
) -> Reply
    ensures { Replied listed_reply (λ a. PostingsChecked bytes.now handle name.now ids.old counts.old places.old a
        ids.new counts.new places.new) result }
{
    of_listed(term_postings_checked(bytes, handle, name, ids, counts, places))
}

// first: how many positions the term has in one document; the positions, rising.
pub fn pstp_positions_checked(
    bytes: &[u8],
    handle: Handle,
    name: &[u8],
    id: u32,
    places: &mut [u32],
) -> Reply
    ensures { Replied counted_reply (λ a. PositionsChecked bytes.now handle name.now id places.old a places.new) result }
{
    of_counted(positions_checked(bytes, handle, name, DocId(id), places))
}

// first: the number of documents in which the names have consecutive positions; their ids, rising.
pub fn pstp_phrase_match_strs_checked(
    bytes: &[u8],
    handle: Handle,
    text: &[u8],
    ends: &[u32],
    ids: &mut [u32],
) -> Reply
    ensures { Replied counted_reply (λ a. TextChecked bytes.now handle Rule.Phrase text.now ends.now ids.old a
        ids.new) result }
{
    of_counted(phrase_match_strs_checked(bytes, handle, text, ends, ids))
}

// first: the number of documents in which two names are within a window, in any order; their ids, rising.
pub fn pstp_near_match_checked(
    bytes: &[u8],
    handle: Handle,
    a: &[u8],
    b: &[u8],
    window: u32,
    ids: &mut [u32],
) -> Reply
    ensures { Replied counted_reply (λ c. TwoChecked bytes.now handle window a.now b.now ids.old c ids.new) result }
{
    of_counted(near_match_checked(bytes, handle, a, b, window, ids))
}

// first: the number of documents in which the names are within a window, in the order named or in any; their ids, rising.
pub fn pstp_near_match_terms_strs_checked(
    bytes: &[u8],
    handle: Handle,
    text: &[u8],
    ends: &[u32],
    window: u32,
    ordered: bool,
    ids: &mut [u32],
) -> Reply
    ensures { Replied counted_reply (λ a. TextChecked bytes.now handle (near_rule ordered window) text.now ends.now ids.old
        a ids.new) result }
{
    of_counted(near_match_terms_strs_checked(bytes, handle, text, ends, window, ordered, ids))
}
