// Metadata and posting lists stored from an offset on. Each function answers the offset past what it stored.
ghost use Rattle.std.specs.Prelude.{None, ◌≡◌, ◌+◌, ◌≤◌, length};
ghost use Rattle.segment.specs.Metadata.{document};
ghost use Rattle.common.specs.Lists.{paired, total};
ghost use Rattle.segment.specs.Written.{metadata_bytes, position_bytes, postings_bytes};
ghost use Rattle.calls.specs.Given.{postings_in};
ghost use Rattle.common.specs.Stores.{Stored};

use common::widths::long;
use leb128::varint::encode_u32;
use write_checks::measure::gap_from;

// The metadata.
pub fn put_metadata(ids: &[u32], lengths: &[u32], out: &mut [u8], at: usize) -> usize
    requires { (length ids.now ≡ length lengths.now)
        × (at + length (metadata_bytes None (paired document ids.now lengths.now)) ≤ length out.old) }
    ensures { Stored (metadata_bytes None (paired document ids.now lengths.now)) at out.old result out.new }
{
    let mut next = at;
    let mut previous = None;
    for (i, id) in ids.iter().enumerate() {
        next = encode_u32(gap_from(previous, *id), out, next);
        next = encode_u32(lengths[i], out, next);
        previous = Some(*id);
    }
    next
}

// The positions of a posting. Each is stored as it is taken: none waits for the next.
pub fn put_positions(positions: &[u32], out: &mut [u8], at: usize) -> usize
    requires { at + length (position_bytes None positions.now) ≤ length out.old }
    ensures { Stored (position_bytes None positions.now) at out.old result out.new }
{
    let mut next = at;
    let mut previous = None;
    for position in positions {
        next = encode_u32(gap_from(previous, *position), out, next);
        previous = Some(*position);
    }
    next
}

// A term's posting list.
pub fn put_postings(
    posting_ids: &[u32],
    counts: &[u32],
    positions: &[u32],
    out: &mut [u8],
    at: usize,
) -> usize
    requires { (length posting_ids.now ≡ length counts.now) × (total counts.now ≤ length positions.now)
        × (at + length (postings_bytes None (postings_in posting_ids.now counts.now positions.now)) ≤ length out.old) }
    ensures { Stored (postings_bytes None (postings_in posting_ids.now counts.now positions.now)) at out.old result out.new }
{
    let mut next = at;
    let mut previous = None;
    let mut from: usize = 0;
    for (i, doc) in posting_ids.iter().enumerate() {
        let count = counts[i];
        let to = from + long(count);
        next = encode_u32(gap_from(previous, *doc), out, next);
        next = encode_u32(count, out, next);
        next = put_positions(&positions[from..to], out, next);
        previous = Some(*doc);
        from = to;
    }
    next
}
