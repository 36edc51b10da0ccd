// Kinds 12 and 11: how long the lists are, and how they fit together.
ghost use Rattle.std.specs.Prelude.{◌≡◌, ◌≤◌, length};
ghost use Rattle.common.specs.Lists.{total};
ghost use Rattle.calls.specs.Given.{given_lists};
ghost use Rattle.calls.specs.Checks.{small, shaped};

use common::widths::wide;
use segment::refusal::LIMIT;
use segment::texts::ends_fit;

// The sum of the counts. Of at most 16,777,216 numbers of 32 bits it never wraps.
pub fn total_of(counts: &[u32]) -> u64
    requires { length counts.now ≤ 16777216 }
    ensures { result ≡ total counts.now }
{
    let mut sum: u64 = 0;
    for count in counts {
        sum += wide(*count);
    }
    sum
}

// No list has over 16,777,216 elements.
#[tactic(auto, unfolding(calls::specs::Checks::small))]
pub fn is_small(
    ids: &[u32],
    lengths: &[u32],
    text: &[u8],
    ends: &[u32],
    posting_counts: &[u32],
    posting_ids: &[u32],
    position_counts: &[u32],
    positions: &[u32],
) -> bool
    ensures { result ≡ small (given_lists ids lengths text ends posting_counts posting_ids position_counts positions) }
{
    ids.len() <= LIMIT
        && lengths.len() <= LIMIT
        && text.len() <= LIMIT
        && ends.len() <= LIMIT
        && posting_counts.len() <= LIMIT
        && posting_ids.len() <= LIMIT
        && position_counts.len() <= LIMIT
        && positions.len() <= LIMIT
}

// The lists fit together.
#[tactic(auto, unfolding(calls::specs::Checks::shaped))]
pub fn is_shaped(
    ids: &[u32],
    lengths: &[u32],
    text: &[u8],
    ends: &[u32],
    posting_counts: &[u32],
    posting_ids: &[u32],
    position_counts: &[u32],
    positions: &[u32],
) -> bool
    requires { (length posting_counts.now ≤ 16777216) × (length position_counts.now ≤ 16777216) }
    ensures { result ≡ shaped (given_lists ids lengths text ends posting_counts posting_ids position_counts positions) }
{
    ids.len() == lengths.len()
        && ends_fit(ends, text.len())
        && posting_counts.len() == ends.len()
        && total_of(posting_counts) == posting_ids.len() as u64
        && position_counts.len() == posting_ids.len()
        && total_of(position_counts) == positions.len() as u64
}
