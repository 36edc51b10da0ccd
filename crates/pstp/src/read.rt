// Open and the read calls.
ghost use Rattle.std.specs.Prelude.{◌≡◌};
ghost use Rattle.segment.specs.Opening.{open_segment};
ghost use Rattle.calls.specs.Replies.{opened, length_answer, df_answer};
ghost use Rattle.calls.specs.Reads.{document_len, df as df_of};
ghost use Rattle.read_documents.specs.Promise.{LengthsAnswered};
ghost use Rattle.read_terms.specs.Promise.{DocsAnswered};
ghost use Rattle.read_positions.specs.Promise.{PostingsAnswered, PositionsAnswered};
ghost use Rattle.c_reply.specs.Replies.{Replied, opened_reply, length_reply, frequency_reply, counted_reply, listed_reply};

use c_reply::reply::{Reply, of_counted, of_doc_freq, of_length, of_listed, of_opened};
use read_documents::documents::{document_len, document_lengths};
use read_open::open_segment::open;
use read_positions::postings::{positions, term_postings};
use read_terms::terms::{df, docs_with_term};
use segment::ids::DocId;

// first: documents; second: terms.
pub fn pstp_open(bytes: &[u8]) -> Reply
    ensures { result ≡ opened_reply (opened (open_segment bytes.now)) }
{
    of_opened(open(bytes))
}

// first: how many documents; their ids and lengths in two buffers.
pub fn pstp_document_lengths(bytes: &[u8], ids: &mut [u32], lengths: &mut [u32]) -> Reply
    ensures { Replied counted_reply (λ a. LengthsAnswered bytes.now ids.old lengths.old a ids.new lengths.new) result }
{
    of_counted(document_lengths(bytes, ids, lengths))
}

// first: 1, and second: the document's length; 0 and 0 where it is unknown.
pub fn pstp_document_len(bytes: &[u8], id: u32) -> Reply
    ensures { result ≡ length_reply (length_answer (document_len bytes.now id)) }
{
    of_length(document_len(bytes, DocId(id)))
}

// first: the number of documents that contain the term, as the directory has it; 0 for an unknown term.
pub fn pstp_df(bytes: &[u8], name: &[u8]) -> Reply
    ensures { result ≡ frequency_reply (df_answer (df_of bytes.now name.now)) }
{
    of_doc_freq(df(bytes, name))
}

// first: how many documents; their ids, rising.
pub fn pstp_docs_with_term(bytes: &[u8], name: &[u8], ids: &mut [u32]) -> Reply
    ensures { Replied counted_reply (λ a. DocsAnswered bytes.now name.now ids.old a ids.new) result }
{
    of_counted(docs_with_term(bytes, name, ids))
}

// first: postings; second: positions; ids, position counts and positions in three buffers.
pub fn pstp_term_postings(
    bytes: &[u8],
    name: &[u8],
    ids: &mut [u32],
    counts: &mut [u32],
    places: &mut [u32],
) -> Reply
    ensures { Replied listed_reply (λ a. PostingsAnswered bytes.now name.now ids.old counts.old places.old a ids.new
        counts.new places.new) result }
{
    of_listed(term_postings(bytes, name, ids, counts, places))
}

// first: how many positions the term has in one document; the positions, rising.
pub fn pstp_positions(bytes: &[u8], name: &[u8], id: u32, places: &mut [u32]) -> Reply
    ensures { Replied counted_reply (λ a. PositionsAnswered bytes.now name.now id places.old a places.new) result }
{
    of_counted(positions(bytes, name, DocId(id), places))
}
