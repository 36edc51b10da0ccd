// Import, write, then ask: the importer is called, then the writer on exactly the lists that it made, then the search on exactly the bytes
// written.
ghost use Rattle.calls.specs.Given.{lists, given_lists, held_lists, left_lists};
ghost use Rattle.midi_bars.specs.Loudness.{beside};
ghost use Rattle.claim_joint.specs.declared.ask.Question.TheVariants.{Phrase};
ghost use Rattle.claim_joint.specs.Promise.{WrittenThenAsked};
ghost use Rattle.claim_import.specs.Steps.{fronts, HasFronts};
ghost use Rattle.claim_import.specs.Promise.{ImportedThenAsked};

use claim_joint::ask::{Asked, Question, write_then_ask};
use midi_import::import::midi_bars;
use segment::refusal::Refusal;
use segment::replies::ListTotals;

// How much was imported, and what writing and asking answered.
#[derive(Clone, Copy)]
pub struct ImportAsked {
    pub totals: ListTotals,
    pub asked: Result<Asked, Refusal>,
}

// Writes the lists at the fronts of the buffers, then asks a phrase. Each name has four bytes.
fn ask_fronts(
    totals: ListTotals,
    ids: &[u32],
    lengths: &[u32],
    text: &[u8],
    ends: &[u32],
    posting_counts: &[u32],
    posting_ids: &[u32],
    position_counts: &[u32],
    positions: &[u32],
    out: &mut [u8],
    name: &[u8],
    name_ends: &[u32],
    found: &mut [u32],
) -> Result<Asked, Refusal>
    requires { HasFronts totals (lists ids.now lengths.now text.now ends.now posting_counts.now posting_ids.now
        position_counts.now positions.now) }
    ensures { WrittenThenAsked (fronts totals (given_lists ids lengths text ends posting_counts posting_ids position_counts
        positions)) out.old Phrase name.now name_ends.now name.now found.old result out.new found.new }
{
    let documents = totals.documents;
    let terms = totals.terms;
    let postings = totals.postings;
    let steps = totals.positions;
    let bytes = 4 * terms;
    write_then_ask(
        &ids[..documents],
        &lengths[..documents],
        &text[..bytes],
        &ends[..terms],
        &posting_counts[..terms],
        &posting_ids[..postings],
        &position_counts[..postings],
        &positions[..steps],
        out,
        Question::Phrase,
        name,
        name_ends,
        name,
        found,
    )
}

// Imports a MIDI file into nine lent buffers, writes a segment of what was imported, and asks which bars have a phrase. The names of the
// phrase are in one text with its ends.
pub fn import_then_ask(
    file: &[u8],
    ids: &mut [u32],
    lengths: &mut [u32],
    text: &mut [u8],
    ends: &mut [u32],
    posting_counts: &mut [u32],
    posting_ids: &mut [u32],
    position_counts: &mut [u32],
    positions: &mut [u32],
    velocities: &mut [u8],
    out: &mut [u8],
    name: &[u8],
    name_ends: &[u32],
    found: &mut [u32],
) -> Result<ImportAsked, Refusal>
    ensures { ImportedThenAsked 16 4 file.now
        (beside (held_lists ids lengths text ends posting_counts posting_ids position_counts positions) velocities.old)
        out.old name.now name_ends.now found.old result
        (beside (left_lists ids lengths text ends posting_counts posting_ids position_counts positions) velocities.new)
        out.new found.new }
{
    let totals = midi_bars(
        file,
        ids,
        lengths,
        text,
        ends,
        posting_counts,
        posting_ids,
        position_counts,
        positions,
        velocities,
    )?;
    let asked = ask_fronts(
        totals,
        ids,
        lengths,
        text,
        ends,
        posting_counts,
        posting_ids,
        position_counts,
        positions,
        out,
        name,
        name_ends,
        found,
    );
    Ok(ImportAsked { totals, asked })
}
