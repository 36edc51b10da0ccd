// The postings of a term, the terms, and all lists, checked and measured in one pass: the writer's refusals in document 01's order, apart
// from 13, or how many bytes the posting lists take.
ghost use Rattle.std.specs.Prelude.{None, ◌≡◌, ◌≤◌, length};
ghost use Rattle.segment.specs.Metadata.{document};
ghost use Rattle.segment.specs.Written.{postings_bytes, lists_bytes};
ghost use Rattle.common.specs.Lists.{paired, total};
ghost use Rattle.write_lookup.specs.Steps.{RisingByIndex};
ghost use Rattle.calls.specs.Given.{given_lists, lists, postings_in};
ghost use Rattle.calls.specs.Checks.{check_postings, check_terms as terms_checks};
ghost use Rattle.write_checks.specs.Steps.{measured};
ghost use Rattle.write_check_all.specs.Steps.{terms_from, start_walk, Checkable, measured_lists};

use crate::walk::Walk;
use common::widths::long;
use segment::ids::DocId;
use segment::refusal::{Reason, Refusal};
use write_checks::check::{check_document_lengths, check_name};
use write_checks::measure::measure_posting_from;
use write_checks::shape::{is_shaped, is_small};
use write_lookup::hints::index_from;

// The postings of a term. Their ids rise, so each document is looked for from the one before on (`near`): a hint, which affects speed only.
#[tactic(auto, using(crate::proofs::Left::turn), unfolding(calls::specs::Checks::check_postings, segment::specs::Written::postings_bytes))]
pub fn measure_postings(
    ids: &[u32],
    lengths: &[u32],
    posting_ids: &[u32],
    counts: &[u32],
    positions: &[u32],
) -> Result<usize, Refusal>
    requires { RisingByIndex ids.now × (length ids.now ≡ length lengths.now)
        × (length posting_ids.now ≡ length counts.now) × (total counts.now ≤ length positions.now)
        × (length counts.now ≤ 16777216) × (length positions.now ≤ 16777216) }
    ensures { result ≡ measured (check_postings (paired document ids.now lengths.now) None
        (postings_in posting_ids.now counts.now positions.now))
        (length (postings_bytes None (postings_in posting_ids.now counts.now positions.now))) }
{
    let mut size: usize = 0;
    let mut previous: Option<DocId> = None;
    // What the next gap is taken from.
    let mut base = DocId(0);
    let mut near: usize = 0;
    let mut at: usize = 0;
    for i in 0..posting_ids.len() {
        let doc = DocId(posting_ids[i]);
        near = index_from(ids, doc, near);
        let end = at + long(counts[i]);
        size += measure_posting_from(ids, lengths, previous, base, doc, near, &positions[at..end])?;
        previous = Some(doc);
        base = doc;
        at = end;
    }
    Ok(size)
}

// The terms, one after the other down to their positions.
fn measure_terms(
    ids: &[u32],
    lengths: &[u32],
    text: &[u8],
    ends: &[u32],
    posting_counts: &[u32],
    posting_ids: &[u32],
    position_counts: &[u32],
    positions: &[u32],
) -> Result<usize, Refusal>
    requires { Checkable (lists ids.now lengths.now text.now ends.now posting_counts.now posting_ids.now
        position_counts.now positions.now) }
    ensures { result ≡ measured (terms_checks (paired document ids.now lengths.now) None
        (terms_from start_walk (given_lists ids lengths text ends posting_counts posting_ids position_counts positions)))
        (length (lists_bytes (terms_from start_walk
        (given_lists ids lengths text ends posting_counts posting_ids position_counts positions)))) }
{
    let mut size: usize = 0;
    let mut walk = Walk::start();
    let mut previous: Option<&[u8]> = None;
    while walk.term < ends.len() {
        let Walk {
            term,
            name,
            posting,
            position,
        } = walk;
        let end = long(ends[term]);
        let name = &text[name..end];
        check_name(previous, name)?;
        let count = posting_counts[term];
        if count == 0 {
            return Err(Refusal::InvalidLayout(Reason::EmptyTermPostingList));
        }
        let last = posting + long(count);
        size += measure_postings(
            ids,
            lengths,
            &posting_ids[posting..last],
            &position_counts[posting..last],
            &positions[position..],
        )?;
        previous = Some(name);
        walk = walk.next(ends, posting_counts, position_counts);
    }
    Ok(size)
}

// Every refusal but 13: list sizes, shape, document order, terms. Or how many bytes the posting lists take.
pub fn measure_lists(
    ids: &[u32],
    lengths: &[u32],
    text: &[u8],
    ends: &[u32],
    posting_counts: &[u32],
    posting_ids: &[u32],
    position_counts: &[u32],
    positions: &[u32],
) -> Result<usize, Refusal>
    ensures { result ≡ measured_lists (given_lists ids lengths text ends posting_counts posting_ids position_counts positions) }
{
    if !is_small(
        ids,
        lengths,
        text,
        ends,
        posting_counts,
        posting_ids,
        position_counts,
        positions,
    ) {
        return Err(Refusal::TooLarge);
    }
    if !is_shaped(
        ids,
        lengths,
        text,
        ends,
        posting_counts,
        posting_ids,
        position_counts,
        positions,
    ) {
        return Err(Refusal::ListShape);
    }
    check_document_lengths(ids, lengths)?;
    measure_terms(
        ids,
        lengths,
        text,
        ends,
        posting_counts,
        posting_ids,
        position_counts,
        positions,
    )
}
