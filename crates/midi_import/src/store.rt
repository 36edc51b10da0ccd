// The lists of a file that was counted, stored into buffers of exactly their lengths.
ghost use Rattle.calls.specs.Given.{lists, left_lists};
ghost use Rattle.midi_read.specs.Files.{grid};
ghost use Rattle.midi_bars.specs.Loudness.{beside};
ghost use Rattle.midi_import.specs.Steps.{StoreFits, StoreDone};

use midi_count::count::Tables;
use midi_fill::fill::fill;
use midi_lists::heads::put_heads;

// All nine lists: five by the counts alone, and the other four by the second pass over the file.
pub fn store(
    file: &[u8],
    ticks: u64,
    steps: u32,
    postings: &[u64; 128],
    starts: &[u64; 128],
    marks: &[u64; 128],
    ids: &mut [u32],
    lengths: &mut [u32],
    text: &mut [u8],
    ends: &mut [u32],
    posting_counts: &mut [u32],
    posting_ids: &mut [u32],
    position_counts: &mut [u32],
    positions: &mut [u32],
    velocities: &mut [u8],
)
    requires { StoreFits file.now ticks steps postings.now starts.now marks.now
        (beside (lists ids.old lengths.old text.old ends.old posting_counts.old posting_ids.old position_counts.old
        positions.old) velocities.old) }
    ensures { StoreDone (grid ticks steps) file.now
        (beside (left_lists ids lengths text ends posting_counts posting_ids position_counts positions) velocities.new) }
{
    put_heads(postings, steps, ids, lengths, text, ends, posting_counts);
    let mut tables = Tables::empty();
    let mut inside: [u64; 128] = [0; 128];
    let mut loud: [u8; 128] = [0; 128];
    fill(
        file,
        ticks,
        u64::from(steps),
        &mut tables,
        &mut inside,
        &mut loud,
        starts,
        marks,
        posting_ids,
        position_counts,
        positions,
        velocities,
    );
}
