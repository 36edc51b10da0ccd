// Cursors spread over the metadata, made once: the walk to a posting's document may start at the nearest one, so that many lists do not
// each walk the metadata from its first document.
ghost use Rattle.std.specs.Prelude.{None, ◌≡◌, ◌<◌};
ghost use Rattle.segment.specs.Steps.{id_of};
ghost use Rattle.read_cursors.specs.Held.{held_documents};
ghost use Rattle.read_lists.specs.Steps.{Marks, Peeked, nearer_of};

use common::widths::wide;
use leb128::varint::Reader;
use read_cursors::documents::Documents;
use read_cursors::values::read_value;
use segment::ids::DocId;
use segment::refusal::{Reason, Refusal};

// The place of document j of `count`: they spread over all 128.
fn slot(j: u32, count: u32) -> usize
    ensures { result < 128 }
{
    if count == 0 {
        return 127;
    }
    let k = wide(j) * 128 / wide(count);
    k.min(127) as usize
}

// 128 cursors spread over the metadata: each at a document of it.
pub fn mark_documents(meta: &[u8], count: u32) -> [Documents; 128]
    ensures { Marks meta.now (held_documents count None meta.now) result }
{
    let first = Documents::start(meta, count);
    let mut marks = [first; 128];
    let mut c = first;
    while 0 < c.remaining {
        let k = slot(first.remaining - c.remaining, first.remaining);
        marks[k] = c;
        c = c.advance(meta);
    }
    marks
}

// The ids of the marks, to search in.
pub fn mark_ids(marks: [Documents; 128]) -> [u32; 128] {
    let mut ids = [0u32; 128];
    for (id, mark) in ids.iter_mut().zip(&marks) {
        *id = mark.id.0;
    }
    ids
}

// The place of the last mark that is not past a document: only a hint, its answer is tested.
fn nearest(ids: &[u32; 128], doc: u32) -> usize
    ensures { result < 128 }
{
    ids.partition_point(|id| *id <= doc).saturating_sub(1)
}

// The place of a mark for a document: any place if the cursor at hand is near, so that a dense list costs no search.
pub fn place_for(ids: &[u32; 128], known: DocId, doc: u32) -> usize
    ensures { result < 128 }
{
    if doc <= known.0 || doc - known.0 < 64 {
        return 0;
    }
    nearest(ids, doc)
}

// The id of the posting at the reader, or 0 where it is refused: looked at before it is read, to choose a mark.
pub fn peek(list: &[u8], from: Reader, previous: Option<DocId>) -> u32
    ensures { Peeked list.now (id_of previous) from.at result }
{
    let value = read_value(
        list,
        from,
        previous.map(|id| id.0),
        Refusal::DocIdOverflow(0),
        Reason::NonIncreasingPostingId,
        0,
    );
    match value {
        Ok(number) => number.value,
        Err(_) => 0,
    }
}

// The cursor to seek from: the mark, where it is further on than the cursor at hand and not past the document.
pub fn nearer(known: Documents, mark: Documents, doc: u32) -> Documents
    ensures { result ≡ nearer_of known mark doc }
{
    if doc < mark.id.0 {
        return known;
    }
    if mark.id.0 <= known.id.0 {
        return known;
    }
    mark
}
