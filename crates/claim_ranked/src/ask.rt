// Write, then ask for the ranked answer: the writer is called, and then the ranked search on exactly the bytes that it wrote.
ghost use Rattle.calls.specs.Given.{given_lists};
ghost use Rattle.claim_ranked.specs.Promise.{WrittenThenRanked};

use ask_ranked::questions::phrase_match_ranked;
use claim_joint::ask::Asked;
use segment::refusal::Refusal;
use write_segment::write::write_positional_segment;

// Writes, then asks for the ranked answer to a phrase: the writer's refusal, or the length written and the search's answer.
pub fn write_then_rank(
    ids: &[u32],
    lengths: &[u32],
    text: &[u8],
    ends: &[u32],
    posting_counts: &[u32],
    posting_ids: &[u32],
    position_counts: &[u32],
    positions: &[u32],
    out: &mut [u8],
    name: &[u8],
    name_ends: &[u32],
    found: &mut [u32],
    counts: &mut [u32],
) -> Result<Asked, Refusal>
    ensures { WrittenThenRanked (given_lists ids lengths text ends posting_counts posting_ids position_counts positions)
        out.old name.now name_ends.now found.old counts.old result out.new found.new counts.new }
{
    let written = write_positional_segment(
        ids,
        lengths,
        text,
        ends,
        posting_counts,
        posting_ids,
        position_counts,
        positions,
        out,
    )?;
    let answer = phrase_match_ranked(&out[..written], name, name_ends, found, counts);
    Ok(Asked { written, answer })
}
