// The length of a document, by a handle.
ghost use Rattle.read_checked.specs.Promise.{LengthChecked};

use handle::handle::{Handle, usable};
use read_cursors::documents::Documents;
use read_documents::documents::document_len;
use segment::ids::DocId;
use segment::refusal::Refusal;

// The length of one document, or that it is unknown: the metadata is walked.
pub fn document_len_checked(bytes: &[u8], h: Handle, id: DocId) -> Result<Option<u32>, Refusal>
    ensures { LengthChecked bytes.now h id.0 result }
{
    if !usable(bytes, h) {
        return document_len(bytes, id);
    }
    let meta = &bytes[h.metadata..h.lists];
    let first = Documents::start(meta, h.documents);
    let here = first.seek(meta, id);
    if here.remaining == 0 || here.id.0 != id.0 {
        return Ok(None);
    }
    Ok(Some(here.len))
}
