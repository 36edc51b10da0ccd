// A length looked up in a caller's own lists.
ghost use Rattle.std.specs.Prelude.{◌≡◌};
ghost use Rattle.calls.specs.Replies.{length_answer};
ghost use Rattle.length_lookup.specs.Lookup.{looked_up};
ghost use Rattle.c_reply.specs.Replies.{length_reply};

use c_reply::reply::{Reply, of_length};
use length_lookup::lookup::length_of;
use segment::ids::DocId;

// first: 1, and second: the length beside the id; 0 and 0 where the list lacks it.
pub fn pstp_length_of(ids: &[u32], lengths: &[u32], id: u32) -> Reply
    ensures { result ≡ length_reply (length_answer (looked_up ids.now lengths.now id)) }
{
    of_length(length_of(ids, lengths, DocId(id)))
}
