// The writer. Everything is checked and measured before the first byte is stored, so a refusal leaves the slice as it was. A list is stored
// before its directory entry, and all sections before the header, since their checksums are taken of what the slice then holds. A list is
// read once for two checksums: its own, and that of all lists.
ghost use Rattle.calls.specs.Given.{given_lists, lists};
ghost use Rattle.write_segment.specs.Steps.{TermsRoom, TermsStored, SegmentRoom, SegmentStored};
ghost use Rattle.write_segment.specs.Promise.{Wrote};

use crate::sizes::metadata_len;
use common::widths::long;
use crc32::checksum::{START, finish};
use segment::fixed::{ENTRY_SIZE, HEADER_SIZE};
use segment::refusal::Refusal;
use write_check_all::lists::measure_lists;
use write_check_all::walk::Walk;
use write_frame::frame::{Offsets, put_entry, put_header};
use write_frame::numbers::put_bytes;
use write_lists::put::{put_metadata, put_postings};

// Every term's posting list, and behind each its directory entry, which has the list's length and checksum. Answers the checksum of all.
fn put_terms(
    ids: &[u32],
    lengths: &[u32],
    text: &[u8],
    ends: &[u32],
    posting_counts: &[u32],
    posting_ids: &[u32],
    position_counts: &[u32],
    positions: &[u32],
    out: &mut [u8],
    lists_at: usize,
) -> u32
    requires { TermsRoom (lists ids.now lengths.now text.now ends.now posting_counts.now posting_ids.now
        position_counts.now positions.now) out.old lists_at }
    ensures { TermsStored (given_lists ids lengths text ends posting_counts posting_ids position_counts positions)
        lists_at out.old result out.new }
{
    let mut walk = Walk::start();
    let mut list = lists_at;
    let mut entry = HEADER_SIZE;
    let mut run = START;
    while walk.term < ends.len() {
        let Walk {
            term,
            name,
            posting,
            position,
        } = walk;
        let count = posting_counts[term];
        let last = posting + long(count);
        let end = put_postings(
            &posting_ids[posting..last],
            &position_counts[posting..last],
            &positions[position..],
            out,
            list,
        );
        let name_len = long(ends[term]) - name;
        let past = put_entry(out, entry, name, name_len, lists_at, list, end, count, run);
        entry = past.entry;
        run = past.run;
        list = end;
        walk = walk.next(ends, posting_counts, position_counts);
    }
    finish(run)
}

// The whole segment at the front of the slice: the sections, then the header over them.
fn put_segment(
    ids: &[u32],
    lengths: &[u32],
    text: &[u8],
    ends: &[u32],
    posting_counts: &[u32],
    posting_ids: &[u32],
    position_counts: &[u32],
    positions: &[u32],
    out: &mut [u8],
    at: Offsets,
)
    requires { SegmentRoom (lists ids.now lengths.now text.now ends.now posting_counts.now posting_ids.now
        position_counts.now positions.now) out.old at }
    ensures { SegmentStored (given_lists ids lengths text ends posting_counts posting_ids position_counts positions)
        out.old out.new }
{
    let lists_crc = put_terms(
        ids,
        lengths,
        text,
        ends,
        posting_counts,
        posting_ids,
        position_counts,
        positions,
        out,
        at.lists,
    );
    put_bytes(out, at.names, text);
    put_metadata(ids, lengths, out, at.metadata);
    put_header(out, ids.len() as u32, ends.len() as u32, lists_crc, at);
}

// Writes documents and terms as a segment: the length and the bytes at the slice's front, or the first refusal in document 01's order,
// which leaves the slice as it was.
pub fn write_positional_segment(
    ids: &[u32],
    lengths: &[u32],
    text: &[u8],
    ends: &[u32],
    posting_counts: &[u32],
    posting_ids: &[u32],
    position_counts: &[u32],
    positions: &[u32],
    out: &mut [u8],
) -> Result<usize, Refusal>
    ensures { Wrote (given_lists ids lengths text ends posting_counts posting_ids position_counts positions) out.old result
        out.new }
{
    let size = measure_lists(
        ids,
        lengths,
        text,
        ends,
        posting_counts,
        posting_ids,
        position_counts,
        positions,
    )?;
    let names = HEADER_SIZE + ends.len() * ENTRY_SIZE;
    let metadata = names + text.len();
    let lists = metadata + metadata_len(ids, lengths);
    let end = lists + size;
    if out.len() < end {
        return Err(Refusal::NoRoom(1, end));
    }
    put_segment(
        ids,
        lengths,
        text,
        ends,
        posting_counts,
        posting_ids,
        position_counts,
        positions,
        out,
        Offsets {
            names,
            metadata,
            lists,
            end,
        },
    );
    Ok(end)
}
