// The call. Everything is checked and measured before the first byte is stored, so a refusal leaves the slice as it was. The two passes
// share the lists of a sound, which are the only ones: together with the bars' ids and lengths they take 36 KiB of the stack.
ghost use Rattle.std.specs.Prelude.{◌≡◌};
ghost use Rattle.segment.specs.Steps.{checked};
ghost use Rattle.segment.specs.Texts.{names};
ghost use Rattle.calls.specs.Given.{laid_flat};
ghost use Rattle.pad_map.specs.Acts.{given_of};
ghost use Rattle.pad_words.specs.Words.{held};
ghost use Rattle.write_segment.specs.Promise.{Wrote};
ghost use Rattle.pad_write.specs.Steps.{check_text, PadAndNames, DocumentsGiven, SegmentRoom, SegmentStored};
ghost use Rattle.pad_write.specs.Promise.{PadWritten};

use crate::measure::measure_sounds;
use crate::store::put_sounds;
use common::widths::long;
use pad_lists::documents::gather_documents;
use pad_words::check::is_whole;
use pad_words::layout::SOUNDS;
use segment::fixed::{ENTRY_SIZE, HEADER_SIZE};
use segment::refusal::{LIMIT, Refusal};
use segment::texts::ends_fit;
use write_frame::frame::{Offsets, put_header};
use write_lists::put::put_metadata;
use write_segment::sizes::metadata_len;

// Kinds 12 and 11: the text's length, and a name for each sound.
fn check_text(text: &[u8], ends: &[u32]) -> Result<(), Refusal>
    ensures { result ≡ checked (check_text text.now ends.now) }
{
    if LIMIT < text.len() || LIMIT < ends.len() {
        return Err(Refusal::TooLarge);
    }
    if ends.len() != SOUNDS || !ends_fit(ends, text.len()) {
        return Err(Refusal::ListShape);
    }
    Ok(())
}

// The whole segment at the front of the slice: the sections, then the header over them.
fn put_segment(
    pad: &[u32],
    ids: &[u32],
    lengths: &[u32],
    text: &[u8],
    ends: &[u32],
    posting_ids: &mut [u32; 256],
    counts: &mut [u32; 256],
    positions: &mut [u32; 8192],
    out: &mut [u8],
    terms: usize,
    at: Offsets,
)
    requires { PadAndNames pad.now text.now ends.now posting_ids.old counts.old positions.old
        × DocumentsGiven pad.now ids.now lengths.now
        × SegmentRoom (given_of (names 0 ends.now text.now) (held pad.now)) out.old terms at }
    ensures { SegmentStored (given_of (names 0 ends.now text.now) (held pad.now)) out.old out.new }
{
    let lists_crc = put_sounds(
        pad,
        text,
        ends,
        posting_ids,
        counts,
        positions,
        out,
        at.names,
        at.lists,
    );
    put_metadata(ids, lengths, out, at.metadata);
    put_header(out, ids.len() as u32, terms as u32, lists_crc, at);
}

// The writer's refusals, 13, or the segment and its length.
fn write_sounds(
    pad: &[u32],
    ids: &[u32],
    lengths: &[u32],
    text: &[u8],
    ends: &[u32],
    posting_ids: &mut [u32; 256],
    counts: &mut [u32; 256],
    positions: &mut [u32; 8192],
    out: &mut [u8],
) -> Result<usize, Refusal>
    requires { PadAndNames pad.now text.now ends.now posting_ids.old counts.old positions.old
        × DocumentsGiven pad.now ids.now lengths.now }
    ensures { Wrote (laid_flat (given_of (names 0 ends.now text.now) (held pad.now))) out.old result out.new }
{
    let tally = measure_sounds(
        pad,
        ids,
        lengths,
        text,
        ends,
        posting_ids,
        counts,
        positions,
    )?;
    let terms = tally.terms;
    let names = HEADER_SIZE + terms * ENTRY_SIZE;
    let metadata = names + tally.names;
    let lists = metadata + metadata_len(ids, lengths);
    let end = lists + tally.lists;
    if out.len() < end {
        return Err(Refusal::NoRoom(1, end));
    }
    put_segment(
        pad,
        ids,
        lengths,
        text,
        ends,
        posting_ids,
        counts,
        positions,
        out,
        terms,
        Offsets {
            names,
            metadata,
            lists,
            end,
        },
    );
    Ok(end)
}

// Writes the pad out as a segment, its sounds named by a text of 128 names: the length and the bytes at the slice's front, or the first
// refusal in document 02's order, which leaves the slice as it was.
pub fn pad_write(pad: &[u32], text: &[u8], ends: &[u32], out: &mut [u8]) -> Result<usize, Refusal>
    ensures { PadWritten pad.now text.now ends.now out.old result out.new }
{
    if !is_whole(pad) {
        return Err(Refusal::BrokenPad);
    }
    check_text(text, ends)?;
    let bars = long(pad[0]);
    let mut ids = [0; 256];
    let mut lengths = [0; 256];
    gather_documents(pad, &mut ids, &mut lengths);
    let mut posting_ids = [0; 256];
    let mut counts = [0; 256];
    let mut positions = [0; 8192];
    write_sounds(
        pad,
        &ids[..bars],
        &lengths[..bars],
        text,
        ends,
        &mut posting_ids,
        &mut counts,
        &mut positions,
        out,
    )
}
