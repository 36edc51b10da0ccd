// The entry: the records are exchanged with the two lent lists, the writer is called on these, and everything is exchanged back. So the
// records are lent as `&mut`, and yet are as before on every outcome, as are the two lists.
ghost use Rattle.std.specs.Prelude.{◌≡◌};
ghost use Rattle.segment.specs.Steps.{checked};
ghost use Rattle.calls.specs.Given.{given_lists, lists};
ghost use Rattle.write_records.specs.Steps.{misfit, check_places as places_checks, WroteApart};
ghost use Rattle.write_records.specs.Promise.{taken_apart, WroteRecords};

use crate::exchange::{DocumentLength, exchange};
use segment::refusal::{LIMIT, Refusal};
use write_checks::shape::is_small;
use write_segment::write::write_positional_segment;

// A lent list has too few or too many places: 12, if something handed in is too large, else 11. 12 does not look at the two lent lists, so
// `ends`, which it looks at anyway, is passed instead of them.
#[tactic(auto, unfolding(crate::specs::Steps::misfit))]
fn refuse_places(
    count: usize,
    text: &[u8],
    ends: &[u32],
    posting_counts: &[u32],
    posting_ids: &[u32],
    position_counts: &[u32],
    positions: &[u32],
) -> Result<(), Refusal>
    ensures { result ≡ checked (misfit count
        (lists ends.now ends.now text.now ends.now posting_counts.now posting_ids.now position_counts.now
        positions.now)) }
{
    if LIMIT < count
        || !is_small(
            ends,
            ends,
            text,
            ends,
            posting_counts,
            posting_ids,
            position_counts,
            positions,
        )
    {
        return Err(Refusal::TooLarge);
    }
    Err(Refusal::ListShape)
}

// The two lent lists have a place for each record, or the refusal.
#[tactic(auto, unfolding(crate::specs::Steps::check_places, crate::specs::Steps::misfit))]
pub fn check_places(
    count: usize,
    ids: &[u32],
    lengths: &[u32],
    text: &[u8],
    ends: &[u32],
    posting_counts: &[u32],
    posting_ids: &[u32],
    position_counts: &[u32],
    positions: &[u32],
) -> Result<(), Refusal>
    ensures { result ≡ checked (places_checks count
        (given_lists ids lengths text ends posting_counts posting_ids position_counts positions)) }
{
    if ids.len() != count || lengths.len() != count {
        return refuse_places(
            count,
            text,
            ends,
            posting_counts,
            posting_ids,
            position_counts,
            positions,
        );
    }
    Ok(())
}

// The writer over the two lists, which now hold the records' ids and lengths.
fn write_apart(
    count: usize,
    ids: &[u32],
    lengths: &[u32],
    text: &[u8],
    ends: &[u32],
    posting_counts: &[u32],
    posting_ids: &[u32],
    position_counts: &[u32],
    positions: &[u32],
    out: &mut [u8],
) -> Result<usize, Refusal>
    ensures { WroteApart count (given_lists ids lengths text ends posting_counts posting_ids position_counts positions)
        out.old result out.new }
{
    check_places(
        count,
        ids,
        lengths,
        text,
        ends,
        posting_counts,
        posting_ids,
        position_counts,
        positions,
    )?;
    write_positional_segment(
        ids,
        lengths,
        text,
        ends,
        posting_counts,
        posting_ids,
        position_counts,
        positions,
        out,
    )
}

// The length of the segment, or the refusal. `ids` and `lengths` are lent for the time of the call, with one place for each record.
pub fn write_positional_segment_records(
    documents: &mut [DocumentLength],
    ids: &mut [u32],
    lengths: &mut [u32],
    text: &[u8],
    ends: &[u32],
    posting_counts: &[u32],
    posting_ids: &[u32],
    position_counts: &[u32],
    positions: &[u32],
    out: &mut [u8],
) -> Result<usize, Refusal>
    ensures { WroteRecords (taken_apart documents.old text.now ends.now posting_counts.now posting_ids.now
        position_counts.now positions.now) documents.old ids.old lengths.old out.old result documents.new ids.new
        lengths.new out.new }
{
    exchange(documents, ids, lengths);
    let written = write_apart(
        documents.len(),
        ids,
        lengths,
        text,
        ends,
        posting_counts,
        posting_ids,
        position_counts,
        positions,
        out,
    );
    exchange(documents, ids, lengths);
    written
}
