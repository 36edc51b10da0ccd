// The lookup over a caller's own lists.
ghost use Rattle.std.specs.Prelude.{◌≡◌};
ghost use Rattle.calls.specs.Replies.{length_answer};
ghost use Rattle.length_lookup.specs.Lookup.{looked_up};

use crate::check::check_ids_and_lengths;
use segment::ids::DocId;
use segment::refusal::Refusal;
use write_lookup::lengths::known_len;

// The length beside the id, or absent where the list lacks it. Or 12; 11; 21 with the place from 0 of the first id that is not above the
// one before it, whatever id is asked. One pass over the ids, then a binary search.
pub fn length_of(ids: &[u32], lengths: &[u32], id: DocId) -> Result<Option<u32>, Refusal>
    ensures { result ≡ length_answer (looked_up ids.now lengths.now id.0) }
{
    check_ids_and_lengths(ids, lengths)?;
    // No index is hinted at.
    Ok(known_len(ids, lengths, id, ids.len()))
}
