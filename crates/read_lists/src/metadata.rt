// Document metadata, checked whole in document 01's order.
ghost use Rattle.std.specs.Prelude.{◌≡◌, ◌-◌};
ghost use Rattle.segment.specs.Metadata.{metadata};
ghost use Rattle.segment.specs.Steps.{checked};

use leb128::varint::Reader;
use read_cursors::documents::read_document;
use segment::refusal::{Reason, Refusal};

// The whole section checked: each document, then trailing bytes.
pub fn decode_document_lengths(meta: &[u8], count: u32) -> Result<(), Refusal>
    ensures { result ≡ checked (metadata count meta.now) }
{
    let mut reader = Reader { at: 0 };
    let mut previous = None;
    for index in 0..count {
        let document = read_document(meta, reader, index, previous)?;
        reader = document.next;
        previous = Some(document.id);
    }
    if reader.at < meta.len() {
        return Err(Refusal::InvalidLayout(Reason::TrailingDocumentMetadata));
    }
    Ok(())
}
