// Bars from a MIDI file.
ghost use Rattle.calls.specs.Given.{held_lists, left_lists};
ghost use Rattle.midi_bars.specs.Loudness.{beside};
ghost use Rattle.midi_import.specs.Promise.{BarsImported};

use crate::room::check_room;
use crate::store::store;
use midi_count::count::{Tables, count};
use midi_lists::sums::{begin, count_sounds};
use midi_read::chunks::read_chunks;
use segment::refusal::Refusal;
use segment::replies::ListTotals;

// Steps to a bar, the length of every bar.
const STEPS: u32 = 16;

// Steps to a quarter.
const QUARTER: u32 = 4;

// Reads a Standard MIDI File of format 0 into the eight lists that the writer takes and the velocities beside the positions, and answers
// how many documents (bars), terms (sounds), postings and positions there are. Refused are 12, 14 and 15, in file order, then 13.
pub fn midi_bars(
    file: &[u8],
    ids: &mut [u32],
    lengths: &mut [u32],
    text: &mut [u8],
    ends: &mut [u32],
    posting_counts: &mut [u32],
    posting_ids: &mut [u32],
    position_counts: &mut [u32],
    positions: &mut [u32],
    velocities: &mut [u8],
) -> Result<ListTotals, Refusal>
    ensures { BarsImported 16 4 file.now
        (beside (held_lists ids lengths text ends posting_counts posting_ids position_counts positions) velocities.old) result
        (beside (left_lists ids lengths text ends posting_counts posting_ids position_counts positions) velocities.new) }
{
    let ticks = read_chunks(file, QUARTER)?;
    let mut tables = Tables::empty();
    let bars = count(file, ticks, u64::from(STEPS), &mut tables)?;
    let mut starts: [u64; 128] = [0; 128];
    let mut marks: [u64; 128] = [0; 128];
    let documents = bars as usize;
    let terms = count_sounds(&tables.postings);
    let all_postings = begin(&tables.postings, &mut starts) as usize;
    let all_positions = begin(&tables.positions, &mut marks) as usize;
    let totals = ListTotals {
        documents,
        terms,
        postings: all_postings,
        positions: all_positions,
    };
    check_room(
        totals,
        ids.len(),
        lengths.len(),
        text.len(),
        ends.len(),
        posting_counts.len(),
        posting_ids.len(),
        position_counts.len(),
        positions.len(),
        velocities.len(),
    )?;
    let bytes = 4 * terms;
    store(
        file,
        ticks,
        STEPS,
        &tables.postings,
        &starts,
        &marks,
        &mut ids[..documents],
        &mut lengths[..documents],
        &mut text[..bytes],
        &mut ends[..terms],
        &mut posting_counts[..terms],
        &mut posting_ids[..all_postings],
        &mut position_counts[..all_postings],
        &mut positions[..all_positions],
        &mut velocities[..all_positions],
    );
    Ok(totals)
}
