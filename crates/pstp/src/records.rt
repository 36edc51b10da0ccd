// The writer over records, id and length. first: how many bytes were written.
ghost use Rattle.write_records.specs.Promise.{taken_apart, WroteRecords};
ghost use Rattle.c_reply.specs.Replies.{Replied, written_reply};

use c_reply::reply::{Reply, of_counted};
use write_records::exchange::DocumentLength;
use write_records::write::write_positional_segment_records;

// first: how many bytes were written. `ids` and `lengths` are lent for the time of the call, a place for each record; these and the
// records are as before on every outcome.
pub fn pstp_write_positional_segment_records(
    documents: &mut [DocumentLength],
    ids: &mut [u32],
    lengths: &mut [u32],
    text: &[u8],
    ends: &[u32],
    posting_counts: &[u32],
    posting_ids: &[u32],
    position_counts: &[u32],
    positions: &[u32],
    out: &mut [u8],
) -> Reply
    ensures { Replied written_reply (λ a. WroteRecords
        (taken_apart documents.old text.now ends.now posting_counts.now posting_ids.now position_counts.now
        positions.now) documents.old ids.old lengths.old out.old a documents.new ids.new lengths.new out.new) result }
{
    of_counted(write_positional_segment_records(
        documents,
        ids,
        lengths,
        text,
        ends,
        posting_counts,
        posting_ids,
        position_counts,
        positions,
        out,
    ))
}
