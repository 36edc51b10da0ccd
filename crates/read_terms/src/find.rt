// A term found by a layout that fits, and its posting list decoded.
ghost use Rattle.std.specs.Prelude.{None, ◌≡◌, false, ◌↔◌, ◌<◌};
ghost use Rattle.read_open.specs.Steps.{SectionsFollow, cut};
ghost use Rattle.read_cursors.specs.Held.{held_documents};
ghost use Rattle.segment.specs.Postings.{decode};
ghost use Rattle.read_lists.specs.Steps.{Marks, tallied, tallied_in};
ghost use Rattle.read_terms.specs.Steps.{ListInside, ListLies, EntryLies, EntryList, TermIsFound, list_entry};
ghost use Rattle.read_open.specs.Opened.{Fits};

use crc32::checksum::crc32;
use read_cursors::documents::Documents;
use read_lists::lists::{decode_postings_bytes, decode_postings_in};
use read_open::directory::term_entry;
use read_open::header::Layout;
use segment::fixed::{ENTRY_SIZE, HEADER_SIZE, read_u32_at, read_usize_at};
use segment::ids::DocId;
use segment::refusal::{Refusal, Section};

// A term's list: its entry's index in the directory, its offsets in the segment, how many postings it has, its checksum.
#[derive(Clone, Copy)]
pub struct TermList {
    pub entry: usize,
    pub start: usize,
    pub end: usize,
    pub df: u32,
    pub checksum: u32,
}

// Whether the list of the entry at an index does not lie in the lists. Opening has shown that it does.
fn list_outside(bytes: &[u8], at: Layout, i: usize) -> bool
    requires { Fits bytes.now at × (i < at.terms) }
    ensures { (result ≡ false) ↔ ListLies bytes.now at i }
{
    let offset = i * ENTRY_SIZE;
    let dir = &bytes[HEADER_SIZE..at.names];
    let from = read_usize_at(dir, offset + 8);
    let size = read_usize_at(dir, offset + 16);
    let room = bytes.len() - at.lists;
    if room < from {
        return true;
    }
    if room - from < size {
        return true;
    }
    false
}

// The list of the entry at an index of the directory.
pub fn entry_list(bytes: &[u8], at: Layout, i: usize) -> TermList
    requires { EntryLies bytes.now at i }
    ensures { EntryList bytes.now at i result }
{
    let offset = i * ENTRY_SIZE;
    let dir = &bytes[HEADER_SIZE..at.names];
    let start = at.lists + read_usize_at(dir, offset + 8);
    let end = start + read_usize_at(dir, offset + 16);
    TermList {
        entry: i,
        start,
        end,
        df: read_u32_at(dir, offset + 24),
        checksum: read_u32_at(dir, offset + 28),
    }
}

// The list of the term with a name; none where it does not lie in the bytes.
pub fn find_term(bytes: &[u8], at: Layout, name: &[u8]) -> Option<TermList>
    requires { Fits bytes.now at }
    ensures { TermIsFound bytes.now at name.now result }
{
    let dir = &bytes[HEADER_SIZE..at.names];
    let i = term_entry(dir, &bytes[at.names..at.metadata], at.terms, name)?;
    if list_outside(bytes, at, i) {
        return None;
    }
    Some(entry_list(bytes, at, i))
}

// The whole list decoded: its checksum, then each posting; how many positions it has.
pub fn decode_postings(bytes: &[u8], at: Layout, list: TermList) -> Result<usize, Refusal>
    requires { SectionsFollow bytes.now at × ListInside bytes.now list }
    ensures { result ≡ tallied (decode (held_documents at.documents None (cut bytes.now at).metadata)
        (list_entry bytes.now list)) }
{
    let own = &bytes[list.start..list.end];
    if crc32(own) != list.checksum {
        return Err(Refusal::ChecksumMismatch(Section::TermPostings));
    }
    decode_postings_bytes(own, list.df, &bytes[at.metadata..at.lists], at.documents)
}

// The whole list decoded as decode_postings does: its checksum, then each posting; how many positions one document has in it.
// The marks are those of the segment's metadata.
pub fn decode_postings_for(
    bytes: &[u8],
    at: Layout,
    list: TermList,
    doc: DocId,
    marks: [Documents; 128],
    ids: &[u32; 128],
) -> Result<usize, Refusal>
    requires { SectionsFollow bytes.now at × ListInside bytes.now list
        × Marks (cut bytes.now at).metadata (held_documents at.documents None (cut bytes.now at).metadata) marks }
    ensures { result ≡ tallied_in doc.0 (decode (held_documents at.documents None (cut bytes.now at).metadata)
        (list_entry bytes.now list)) }
{
    let own = &bytes[list.start..list.end];
    if crc32(own) != list.checksum {
        return Err(Refusal::ChecksumMismatch(Section::TermPostings));
    }
    decode_postings_in(
        own,
        list.df,
        &bytes[at.metadata..at.lists],
        at.documents,
        doc,
        marks,
        ids,
    )
}
