// The calls on documents: no list is decoded.
ghost use Rattle.std.specs.Prelude.{None, ◌≡◌, ◌≤◌, length};
ghost use Rattle.read_cursors.specs.Held.{held_documents};
ghost use Rattle.calls.specs.Reads.{document_len};
ghost use Rattle.calls.specs.Replies.{length_answer};
ghost use Rattle.read_documents.specs.Promise.{LengthsAnswered};
ghost use Rattle.read_documents.specs.Steps.{FilledDocuments};

use common::widths::long;
use read_cursors::documents::Documents;
use read_open::open_segment::open_layout;
use segment::ids::DocId;
use segment::refusal::Refusal;

// The documents of the metadata, ids and lengths side by side at the front of two buffers.
fn fill_documents(meta: &[u8], count: u32, ids: &mut [u32], lengths: &mut [u32])
    requires { (length (held_documents count None meta.now) ≤ length ids.old)
        × (length (held_documents count None meta.now) ≤ length lengths.old) }
    ensures { FilledDocuments (held_documents count None meta.now) ids.old lengths.old ids.new lengths.new }
{
    let mut c = Documents::start(meta, count);
    // A cursor holds no borrow and is advanced with the bytes, so it is no iterator: the place is counted beside it.
    let mut i: usize = 0;
    while 0 < c.remaining {
        ids[i] = c.id.0;
        lengths[i] = c.len;
        c = c.advance(meta);
        i += 1;
    }
}

// How many documents the segment has, their ids and lengths in rising order of ids.
pub fn document_lengths(
    bytes: &[u8],
    ids: &mut [u32],
    lengths: &mut [u32],
) -> Result<usize, Refusal>
    ensures { LengthsAnswered bytes.now ids.old lengths.old result ids.new lengths.new }
{
    let at = open_layout(bytes)?;
    let n = long(at.documents);
    if ids.len() < n {
        return Err(Refusal::NoRoom(1, n));
    }
    if lengths.len() < n {
        return Err(Refusal::NoRoom(2, n));
    }
    fill_documents(&bytes[at.metadata..at.lists], at.documents, ids, lengths);
    Ok(n)
}

// The length of one document, or that it is unknown.
pub fn document_len(bytes: &[u8], id: DocId) -> Result<Option<u32>, Refusal>
    ensures { result ≡ length_answer (document_len bytes.now id.0) }
{
    let at = open_layout(bytes)?;
    let meta = &bytes[at.metadata..at.lists];
    let first = Documents::start(meta, at.documents);
    let here = first.seek(meta, id);
    if here.remaining == 0 || here.id.0 != id.0 {
        return Ok(None);
    }
    Ok(Some(here.len))
}
