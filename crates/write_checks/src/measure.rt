// A posting with its positions, checked and measured in one pass: the writer's refusal, or how many bytes it takes.
ghost use Rattle.std.specs.Prelude.{None, Some, ◌≡◌, ◌≤◌, length, option_map};
ghost use Rattle.common.specs.Lists.{paired};
ghost use Rattle.segment.specs.Metadata.{document};
ghost use Rattle.segment.specs.Records.{gap};
ghost use Rattle.segment.specs.Written.{position_bytes, posting_bytes};
ghost use Rattle.write_lookup.specs.Steps.{RisingByIndex};
ghost use Rattle.calls.specs.Given.{posting};
ghost use Rattle.calls.specs.Checks.{check_positions, check_posting};
ghost use Rattle.write_checks.specs.Steps.{measured};

use crate::check::check_position;
use leb128::varint::encoded_len;
use segment::ids::{DocId, TokenPos};
use segment::refusal::{Reason, Refusal};
use write_lookup::lengths::known_len;

// The gap from the value before; of the first, the value itself. It serves document ids and token positions alike, so both are plain u32
// here. What was checked rises, so the difference is never cut off at 0; saying so saves every caller the proof of that.
pub fn gap_from(previous: Option<u32>, value: u32) -> u32
    ensures { result ≡ gap previous value }
{
    match previous {
        Some(before) => value.saturating_sub(before),
        None => value,
    }
}

// The positions of a posting.
#[tactic(auto, using(crate::proofs::Use::turn), unfolding(calls::specs::Checks::check_positions, segment::specs::Written::position_bytes))]
fn measure_positions(positions: &[u32], len: u32) -> Result<usize, Refusal>
    requires { length positions.now ≤ 16777216 }
    ensures { result ≡ measured (check_positions len None positions.now) (length (position_bytes None positions.now)) }
{
    let mut size: usize = 0;
    let mut previous = None;
    for position in positions {
        let position = TokenPos(*position);
        check_position(previous, position, len)?;
        size += encoded_len(gap_from(previous.map(|p| p.0), position.0));
        previous = Some(position);
    }
    Ok(size)
}

// One posting, in document 01's order of tests: unknown document, underflow, order, no positions, then each position. `near` is a hint
// where the document's id is; it affects speed only. The order is that behind `previous`, which the first posting of a term lacks; the gap
// is taken from `base`, whichever it is.
#[tactic(auto, using(crate::proofs::Use::sizes), unfolding(calls::specs::Checks::check_posting, segment::specs::Written::posting_bytes))]
pub fn measure_posting_from(
    ids: &[u32],
    lengths: &[u32],
    previous: Option<DocId>,
    base: DocId,
    doc: DocId,
    near: usize,
    positions: &[u32],
) -> Result<usize, Refusal>
    requires { RisingByIndex ids.now × (length ids.now ≡ length lengths.now) × (length positions.now ≤ 16777216) }
    ensures { result ≡ measured (check_posting (paired document ids.now lengths.now) (option_map (λ d. d.0) previous)
        (posting doc.0 positions.now)) (length (posting_bytes (Some base.0) (posting doc.0 positions.now))) }
{
    let len = known_len(ids, lengths, doc, near).ok_or(Refusal::InvalidLayout(
        Reason::UnknownDocument,
    ))?;
    if let Some(before) = previous {
        if doc.0 < before.0 {
            return Err(Refusal::InvalidLayout(Reason::PostingIdGapUnderflow));
        }
        if doc.0 == before.0 {
            return Err(Refusal::InvalidLayout(Reason::PostingIdsNotIncreasing));
        }
    }
    if positions.is_empty() {
        return Err(Refusal::InvalidLayout(Reason::EmptyPositionList));
    }
    let size = measure_positions(positions, len)?;
    let gap = encoded_len(gap_from(Some(base.0), doc.0));
    let count = encoded_len(positions.len() as u32);
    Ok(gap + count + size)
}

// One posting whose gap is taken from the one before it, and of the first from 0.
pub fn measure_posting(
    ids: &[u32],
    lengths: &[u32],
    previous: Option<DocId>,
    doc: DocId,
    near: usize,
    positions: &[u32],
) -> Result<usize, Refusal>
    requires { RisingByIndex ids.now × (length ids.now ≡ length lengths.now) × (length positions.now ≤ 16777216) }
    ensures { result ≡ measured (check_posting (paired document ids.now lengths.now) (option_map (λ d. d.0) previous)
        (posting doc.0 positions.now)) (length (posting_bytes (option_map (λ d. d.0) previous) (posting doc.0 positions.now))) }
{
    let base = previous.unwrap_or(DocId(0));
    measure_posting_from(ids, lengths, previous, base, doc, near, positions)
}
