// Write from records, then ask.
ghost use Rattle.calls.specs.Given.{given_lists};
ghost use Rattle.write_records.specs.Promise.{taken_apart};
ghost use Rattle.claim_records.specs.Steps.{AskedApart};
ghost use Rattle.claim_records.specs.Promise.{Demand3Records};

use claim_joint::ask::{Asked, Question, write_then_ask};
use segment::refusal::Refusal;
use write_records::exchange::{DocumentLength, exchange};
use write_records::write::check_places;

// The writer and the search over the lists that hold the records' ids and lengths.
fn ask_apart(
    count: usize,
    ids: &[u32],
    lengths: &[u32],
    text: &[u8],
    ends: &[u32],
    posting_counts: &[u32],
    posting_ids: &[u32],
    position_counts: &[u32],
    positions: &[u32],
    out: &mut [u8],
    question: Question,
    name: &[u8],
    name_ends: &[u32],
    other: &[u8],
    found: &mut [u32],
) -> Result<Asked, Refusal>
    ensures { AskedApart count (given_lists ids lengths text ends posting_counts posting_ids position_counts positions)
        out.old question name.now name_ends.now other.now found.old result out.new found.new }
{
    check_places(
        count,
        ids,
        lengths,
        text,
        ends,
        posting_counts,
        posting_ids,
        position_counts,
        positions,
    )?;
    write_then_ask(
        ids,
        lengths,
        text,
        ends,
        posting_counts,
        posting_ids,
        position_counts,
        positions,
        out,
        question,
        name,
        name_ends,
        other,
        found,
    )
}

// Writes from records, then asks: the writer's refusal, or the length written and the search's answer. Records and the two lent lists are
// as before on every outcome. The names that are asked for are in one text with its ends, or, of two names, the second is `other`.
pub fn write_records_then_ask(
    documents: &mut [DocumentLength],
    ids: &mut [u32],
    lengths: &mut [u32],
    text: &[u8],
    ends: &[u32],
    posting_counts: &[u32],
    posting_ids: &[u32],
    position_counts: &[u32],
    positions: &[u32],
    out: &mut [u8],
    question: Question,
    name: &[u8],
    name_ends: &[u32],
    other: &[u8],
    found: &mut [u32],
) -> Result<Asked, Refusal>
    ensures { Demand3Records (taken_apart documents.old text.now ends.now posting_counts.now posting_ids.now
        position_counts.now positions.now) documents.old ids.old lengths.old out.old question name.now name_ends.now
        other.now found.old result documents.new ids.new lengths.new out.new found.new }
{
    exchange(documents, ids, lengths);
    let asked = ask_apart(
        documents.len(),
        ids,
        lengths,
        text,
        ends,
        posting_counts,
        posting_ids,
        position_counts,
        positions,
        out,
        question,
        name,
        name_ends,
        other,
        found,
    );
    exchange(documents, ids, lengths);
    asked
}
