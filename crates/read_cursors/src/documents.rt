// Document metadata: per document an id gap and a length.
ghost use Rattle.std.specs.Prelude.{None, ◌≡◌, ◌-◌, drop, eqb};
ghost use Rattle.segment.specs.Metadata.{read_document};
ghost use Rattle.segment.specs.Steps.{id_of};
ghost use Rattle.read_cursors.specs.Steps.{document_means, ShortRead, documents_from};
ghost use Rattle.read_cursors.specs.Steps.{EnteredDocuments, AdvancedDocuments, SoughtDocument};
ghost use Rattle.read_cursors.specs.Held.{held_documents};

use crate::singles::all_single;
use common::widths::byte;
use leb128::varint::{Number, Reader};
use segment::ids::DocId;
use segment::refusal::{Reason, Refusal, Section};

// A document that was read, and the advanced reader.
#[derive(Clone, Copy)]
pub struct DocumentRead {
    pub id: DocId,
    pub len: u32,
    pub next: Reader,
}

// The document at the reader, number by number: both numbers, overflow, order. The first one's gap is its id.
fn read_document_each(
    meta: &[u8],
    from: Reader,
    index: u32,
    previous: Option<DocId>,
) -> Result<DocumentRead, Refusal>
    ensures { document_means meta.now result ≡ read_document index (id_of previous) (drop from.at meta.now) }
{
    let malformed = Refusal::InvalidVarint(Section::DocumentMetadata, index as u64);
    let Some(gap) = from.decode_u32(meta) else {
        return Err(malformed);
    };
    let Some(len) = gap.next.decode_u32(meta) else {
        return Err(malformed);
    };
    let Some(before) = previous else {
        return Ok(DocumentRead {
            id: DocId(gap.value),
            len: len.value,
            next: len.next,
        });
    };
    if u32::MAX - before.0 < gap.value {
        return Err(Refusal::DocIdOverflow(index as u64));
    }
    let id = before.0 + gap.value;
    if id <= before.0 {
        return Err(Refusal::InvalidLayout(Reason::NonIncreasingDocumentId));
    }
    Ok(DocumentRead {
        id: DocId(id),
        len: len.value,
        next: len.next,
    })
}

// The document at the reader, where its gap and its length take a byte each and it is sure to be accepted.
fn short_document(
    meta: &[u8],
    from: Reader,
    index: u32,
    previous: Option<DocId>,
) -> Option<DocumentRead>
    ensures { ShortRead meta.now (read_document index (id_of previous) (drop from.at meta.now)) result }
{
    let before = previous?;
    let at = from.at;
    if !all_single(meta, at, 2) {
        return None;
    }
    let gap = byte(meta[at]);
    let len = byte(meta[at + 1]);
    if gap == 0 || u32::MAX - before.0 < gap {
        return None;
    }
    Some(DocumentRead {
        id: DocId(before.0 + gap),
        len,
        next: Reader { at: at + 2 },
    })
}

// The document at the reader: at once where it is short, else number by number.
pub fn read_document(
    meta: &[u8],
    from: Reader,
    index: u32,
    previous: Option<DocId>,
) -> Result<DocumentRead, Refusal>
    ensures { document_means meta.now result ≡ read_document index (id_of previous) (drop from.at meta.now) }
{
    match short_document(meta, from, index, previous) {
        Some(d) => Ok(d),
        None => read_document_each(meta, from, index, previous),
    }
}

// A cursor over the metadata: `remaining` documents are to come, the first of them is `id` with length `len`, and the next one starts at
// offset `at`.
#[derive(Clone, Copy)]
pub struct Documents {
    pub at: usize,
    pub remaining: u32,
    pub id: DocId,
    pub len: u32,
}

impl Documents {
    // The cursor at the first of `remaining` documents from the reader on; none remains if that one is refused.
    fn enter(
        meta: &[u8],
        from: Reader,
        remaining: u32,
        index: u32,
        previous: Option<DocId>,
    ) -> Documents
        ensures { EnteredDocuments meta.now remaining (id_of previous) from.at result }
    {
        let none = Documents {
            at: 0,
            remaining: 0,
            id: DocId(0),
            len: 0,
        };
        if remaining == 0 {
            return none;
        }
        let Ok(d) = read_document_each(meta, from, index, previous) else {
            return none;
        };
        Documents {
            at: d.next.at,
            remaining,
            id: d.id,
            len: d.len,
        }
    }

    // The cursor at the first document.
    pub fn start(meta: &[u8], count: u32) -> Documents
        ensures { documents_from meta.now result ≡ held_documents count None meta.now }
    {
        Documents::enter(meta, Reader { at: 0 }, count, 0, None)
    }

    // The cursor advanced by one document: at once where the next one is short.
    pub fn advance(self, meta: &[u8]) -> Documents
        ensures { AdvancedDocuments meta.now self result }
    {
        if self.remaining == 0 {
            return self;
        }
        let remaining = self.remaining - 1;
        let from = Reader { at: self.at };
        if 0 < remaining {
            if let Some(d) = short_document(meta, from, 1, Some(self.id)) {
                return Documents {
                    at: d.next.at,
                    remaining,
                    id: d.id,
                    len: d.len,
                };
            }
        }
        Documents::enter(meta, from, remaining, 1, Some(self.id))
    }

    // The cursor at the first document from here whose id is at least `id`.
    pub fn seek(self, meta: &[u8], id: DocId) -> Documents
        ensures { SoughtDocument meta.now id.0 self result }
    {
        let mut c = self;
        while 0 < c.remaining {
            if id.0 <= c.id.0 {
                return c;
            }
            c = c.advance(meta);
        }
        c
    }
}
