// Write, check once, then ask: the writer is called, then the check on exactly the bytes that it wrote, then the search on the same bytes
// with the handle that the check answered for them.
ghost use Rattle.calls.specs.Given.{given_lists};
ghost use Rattle.handle.specs.Handles.{HandleOf};
ghost use Rattle.claim_joint.specs.Promise.{Put, WrittenThenAsked};

use ask_checked::questions::{
    near_match_checked, near_match_terms_strs_checked, phrase_match_strs_checked,
};
use claim_joint::ask::{Asked, Question};
use handle::checking::check;
use handle::handle::Handle;
use segment::refusal::Refusal;
use write_segment::write::write_positional_segment;

// A question put to a segment with a handle. With the segment's own it is answered as without.
fn ask_with(
    bytes: &[u8],
    h: Handle,
    question: Question,
    name: &[u8],
    name_ends: &[u32],
    other: &[u8],
    found: &mut [u32],
) -> Result<usize, Refusal>
    ensures { HandleOf bytes.now h
        → Put bytes.now question name.now name_ends.now other.now found.old result found.new }
{
    match question {
        Question::Phrase => phrase_match_strs_checked(bytes, h, name, name_ends, found),
        Question::Near(window, ordered) => near_match_terms_strs_checked(
            bytes, h, name, name_ends, window, ordered, found,
        ),
        Question::Two(window) => near_match_checked(bytes, h, name, other, window, found),
    }
}

// Checks a segment, then puts a question to it with the handle.
fn check_then_ask(
    bytes: &[u8],
    question: Question,
    name: &[u8],
    name_ends: &[u32],
    other: &[u8],
    found: &mut [u32],
) -> Result<usize, Refusal>
    ensures { Put bytes.now question name.now name_ends.now other.now found.old result found.new }
{
    let h = check(bytes);
    ask_with(bytes, h, question, name, name_ends, other, found)
}

// Writes, checks once, then asks: the writer's refusal, or the length written and the search's answer. The parameters, the answer and the
// promise are those of `write_then_ask`.
pub fn write_check_then_ask(
    ids: &[u32],
    lengths: &[u32],
    text: &[u8],
    ends: &[u32],
    posting_counts: &[u32],
    posting_ids: &[u32],
    position_counts: &[u32],
    positions: &[u32],
    out: &mut [u8],
    question: Question,
    name: &[u8],
    name_ends: &[u32],
    other: &[u8],
    found: &mut [u32],
) -> Result<Asked, Refusal>
    ensures { WrittenThenAsked (given_lists ids lengths text ends posting_counts posting_ids position_counts positions)
        out.old question name.now name_ends.now other.now found.old result out.new found.new }
{
    let written = write_positional_segment(
        ids,
        lengths,
        text,
        ends,
        posting_counts,
        posting_ids,
        position_counts,
        positions,
        out,
    )?;
    let answer = check_then_ask(&out[..written], question, name, name_ends, other, found);
    Ok(Asked { written, answer })
}
