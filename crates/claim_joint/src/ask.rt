// Write, then ask: the writer is called, and then the search on exactly the bytes that it wrote.
ghost use Rattle.calls.specs.Given.{given_lists};
ghost use Rattle.claim_joint.specs.Promise.{Put, WrittenThenAsked};

use ask_search::questions::{near_match, near_match_terms_strs, phrase_match_strs};
use segment::refusal::Refusal;
use write_segment::write::write_positional_segment;

// A phrase; names near one another within a window, in the order named if the flag is set, else in any; two names near one another.
#[derive(Clone, Copy)]
pub enum Question {
    Phrase,
    Near(u32, bool),
    Two(u32),
}

// How many bytes were written, and what the search answered.
#[derive(Clone, Copy)]
pub struct Asked {
    pub written: usize,
    pub answer: Result<usize, Refusal>,
}

// A question put to a segment.
fn ask(
    bytes: &[u8],
    question: Question,
    name: &[u8],
    name_ends: &[u32],
    other: &[u8],
    found: &mut [u32],
) -> Result<usize, Refusal>
    ensures { Put bytes.now question name.now name_ends.now other.now found.old result found.new }
{
    match question {
        Question::Phrase => phrase_match_strs(bytes, name, name_ends, found),
        Question::Near(window, ordered) => near_match_terms_strs(
            bytes, name, name_ends, window, ordered, found,
        ),
        Question::Two(window) => near_match(bytes, name, other, window, found),
    }
}

// Writes, then asks: the writer's refusal, or the length written and the search's answer. The names that are asked for are in one text
// with its ends, or, of two names, the second is `other`.
pub fn write_then_ask(
    ids: &[u32],
    lengths: &[u32],
    text: &[u8],
    ends: &[u32],
    posting_counts: &[u32],
    posting_ids: &[u32],
    position_counts: &[u32],
    positions: &[u32],
    out: &mut [u8],
    question: Question,
    name: &[u8],
    name_ends: &[u32],
    other: &[u8],
    found: &mut [u32],
) -> Result<Asked, Refusal>
    ensures { WrittenThenAsked (given_lists ids lengths text ends posting_counts posting_ids position_counts positions)
        out.old question name.now name_ends.now other.now found.old result out.new found.new }
{
    let written = write_positional_segment(
        ids,
        lengths,
        text,
        ends,
        posting_counts,
        posting_ids,
        position_counts,
        positions,
        out,
    )?;
    let answer = ask(&out[..written], question, name, name_ends, other, found);
    Ok(Asked { written, answer })
}
