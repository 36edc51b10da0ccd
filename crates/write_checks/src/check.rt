// The writer's refusals of documents, one position, and one name.
ghost use Rattle.std.specs.Prelude.{None, ◌≡◌, length, option_map};
ghost use Rattle.segment.specs.Metadata.{document};
ghost use Rattle.segment.specs.Steps.{checked};
ghost use Rattle.common.specs.Lists.{paired};
ghost use Rattle.calls.specs.Checks.{check_documents, position_checks, check_name as name_checks};

use segment::ids::TokenPos;
use segment::names::precedes;
use segment::refusal::{Reason, Refusal};
use utf8::characters::is_utf8;

// The documents' ids rise.
pub fn check_document_lengths(ids: &[u32], lengths: &[u32]) -> Result<(), Refusal>
    requires { length ids.now ≡ length lengths.now }
    ensures { result ≡ checked (check_documents None (paired document ids.now lengths.now)) }
{
    for i in 1..ids.len() {
        if ids[i] <= ids[i - 1] {
            return Err(Refusal::InvalidLayout(Reason::DocumentLengthsNotIncreasing));
        }
    }
    Ok(())
}

// One position, in document 01's order of tests: underflow, order, length. The first has no position before it.
#[tactic(auto, unfolding(calls::specs::Checks::position_checks))]
pub fn check_position(
    previous: Option<TokenPos>,
    position: TokenPos,
    len: u32,
) -> Result<(), Refusal>
    ensures { result ≡ checked (position_checks len (option_map (λ p. p.0) previous) position.0) }
{
    if let Some(before) = previous {
        if position.0 < before.0 {
            return Err(Refusal::InvalidLayout(Reason::PositionGapUnderflow));
        }
        if position.0 == before.0 {
            return Err(Refusal::InvalidLayout(Reason::PositionsNotIncreasing));
        }
    }
    if len <= position.0 {
        return Err(Refusal::InvalidLayout(Reason::WrittenPositionExceedsLength));
    }
    Ok(())
}

// A term's name, in document 01's order of tests: UTF-8, empty, order. The first has no name before it.
#[tactic(auto, unfolding(calls::specs::Checks::check_name))]
pub fn check_name(previous: Option<&[u8]>, name: &[u8]) -> Result<(), Refusal>
    ensures { result ≡ checked (name_checks (option_map (λ p. p.now) previous.entry) name.now) }
{
    if !is_utf8(name) {
        return Err(Refusal::InvalidUtf8);
    }
    if name.is_empty() {
        return Err(Refusal::InvalidLayout(Reason::EmptyTerm));
    }
    if let Some(before) = previous {
        if !precedes(before, name) {
            return Err(Refusal::InvalidLayout(Reason::TermsNotIncreasing));
        }
    }
    Ok(())
}
