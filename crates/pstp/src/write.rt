// The writer. first: how many bytes were written.
ghost use Rattle.calls.specs.Given.{given_lists};
ghost use Rattle.write_segment.specs.Promise.{Wrote};
ghost use Rattle.c_reply.specs.Replies.{Replied, written_reply};

use c_reply::reply::{Reply, of_counted};
use write_segment::write::write_positional_segment;

// first: how many bytes were written: documents and terms as a segment, at the slice's front.
pub fn pstp_write_positional_segment(
    ids: &[u32],
    lengths: &[u32],
    text: &[u8],
    ends: &[u32],
    posting_counts: &[u32],
    posting_ids: &[u32],
    position_counts: &[u32],
    positions: &[u32],
    out: &mut [u8],
) -> Reply
    ensures { Replied written_reply (λ a. Wrote
        (given_lists ids lengths text ends posting_counts posting_ids position_counts positions) out.old a out.new) result }
{
    of_counted(write_positional_segment(
        ids,
        lengths,
        text,
        ends,
        posting_counts,
        posting_ids,
        position_counts,
        positions,
        out,
    ))
}
