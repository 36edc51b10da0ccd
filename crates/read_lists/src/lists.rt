// Posting lists: checked in document 01's order. The known-document test walks the metadata alongside the postings: both rise, so no
// posting costs a search.
ghost use Rattle.std.specs.Prelude.{None, ◌≡◌, cond, eqb, drop};
ghost use Rattle.segment.specs.Postings.{all_postings};
ghost use Rattle.segment.specs.Steps.{id_of};
ghost use Rattle.read_lists.specs.Steps.{WalkedPositions, WalkedHead, Marks, tallied, tallied_in};
ghost use Rattle.read_cursors.specs.Held.{held_documents};

use crate::marks::{nearer, peek, place_for};
use leb128::varint::Reader;
use read_cursors::documents::Documents;
use read_cursors::values::read_value;
use segment::ids::DocId;
use segment::refusal::{Reason, Refusal, Section};

// All positions of a posting: per position the number, overflow, order, length; answers the reader after them. `place` is the posting's
// index in its list.
fn read_positions(
    list: &[u8],
    from: Reader,
    count: u32,
    place: u32,
    len: u32,
) -> Result<Reader, Refusal>
    ensures { WalkedPositions list.now count place len from.at result }
{
    let mut reader = from;
    let mut previous = None;
    for i in 0..count {
        let index = place as u64 + i as u64;
        let position = read_value(
            list,
            reader,
            previous,
            Refusal::PositionOverflow(index),
            Reason::NonIncreasingPosition,
            index,
        )?;
        if len <= position.value {
            return Err(Refusal::InvalidLayout(Reason::PositionExceedsLength));
        }
        reader = position.next;
        previous = Some(position.value);
    }
    Ok(reader)
}

// A posting up to its positions, and the metadata's cursor at its document: the next posting's search starts there.
#[derive(Clone, Copy)]
pub struct Head {
    pub doc: DocId,
    pub count: u32,
    pub next: Reader,
    pub documents: Documents,
}

// A posting up to its positions: the gap, overflow, order, known document, count, count 0.
fn read_head(
    list: &[u8],
    from: Reader,
    place: u32,
    previous: Option<DocId>,
    meta: &[u8],
    documents: Documents,
) -> Result<Head, Refusal>
    ensures { WalkedHead list.now from.at place (id_of previous) meta.now documents result }
{
    let index = place as u64;
    let gap = read_value(
        list,
        from,
        previous.map(|id| id.0),
        Refusal::DocIdOverflow(index),
        Reason::NonIncreasingPostingId,
        index,
    )?;
    let doc = DocId(gap.value);
    let here = documents.seek(meta, doc);
    if here.remaining == 0 || here.id.0 != doc.0 {
        return Err(Refusal::InvalidLayout(Reason::UnknownDocument));
    }
    let Some(count) = gap.next.decode_u32(list) else {
        return Err(Refusal::InvalidVarint(Section::Postings, index));
    };
    if count.value == 0 {
        return Err(Refusal::InvalidLayout(Reason::EmptyPositionList));
    }
    Ok(Head {
        doc,
        count: count.value,
        next: count.next,
        documents: here,
    })
}

// All postings of a list, then trailing bytes; answers the number of positions.
pub fn decode_postings_bytes(
    list: &[u8],
    df: u32,
    meta: &[u8],
    documents: u32,
) -> Result<usize, Refusal>
    ensures { result ≡ tallied (all_postings df (held_documents documents None meta.now) list.now) }
{
    let mut known = Documents::start(meta, documents);
    let mut reader = Reader { at: 0 };
    let mut previous = None;
    let mut total: usize = 0;
    for place in 0..df {
        let head = read_head(list, reader, place, previous, meta, known)?;
        known = head.documents;
        reader = read_positions(list, head.next, head.count, place, known.len)?;
        previous = Some(head.doc);
        total += head.count as usize;
    }
    if reader.at < list.len() {
        return Err(Refusal::InvalidLayout(Reason::TrailingPostingBytes));
    }
    Ok(total)
}

// How many positions a posting adds to one document's: none if it is of another.
fn count_in(posting: DocId, count: u32, doc: DocId) -> u32
    ensures { result ≡ cond (eqb posting.0 doc.0) count 0 }
{
    if posting.0 != doc.0 {
        return 0;
    }
    count
}

// All postings of a list, then trailing bytes, as decode_postings_bytes; answers how many positions one document has in it.
// The walk to a posting's document starts at the nearest mark, so that a short list does not walk the metadata from its first document.
pub fn decode_postings_in(
    list: &[u8],
    df: u32,
    meta: &[u8],
    documents: u32,
    doc: DocId,
    marks: [Documents; 128],
    ids: &[u32; 128],
) -> Result<usize, Refusal>
    requires { Marks meta.now (held_documents documents None meta.now) marks }
    ensures { result ≡ tallied_in doc.0 (all_postings df (held_documents documents None meta.now) list.now) }
{
    let mut known = Documents::start(meta, documents);
    let mut reader = Reader { at: 0 };
    let mut previous = None;
    let mut total: usize = 0;
    for place in 0..df {
        let target = peek(list, reader, previous);
        let mark = marks[place_for(ids, known.id, target)];
        let near = nearer(known, mark, target);
        let head = read_head(list, reader, place, previous, meta, near)?;
        known = head.documents;
        reader = read_positions(list, head.next, head.count, place, known.len)?;
        previous = Some(head.doc);
        total += count_in(head.doc, head.count, doc) as usize;
    }
    if reader.at < list.len() {
        return Err(Refusal::InvalidLayout(Reason::TrailingPostingBytes));
    }
    Ok(total)
}
