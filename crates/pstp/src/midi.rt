// Bars from MIDI files.
ghost use Rattle.calls.specs.Given.{held_lists, left_lists};
ghost use Rattle.midi_bars.specs.Loudness.{beside};
ghost use Rattle.midi_import.specs.Promise.{BarsImported};
ghost use Rattle.c_reply.specs.Replies.{Replied, imported_reply};

use c_reply::reply::{Reply, of_imported};
use midi_import::import::midi_bars;

// first: documents (bars); second: terms (sounds); third: postings; fourth: positions; the eight lists that the writer takes, and the
// velocities beside the positions, at the fronts of the buffers.
pub fn pstp_midi_bars(
    file: &[u8],
    ids: &mut [u32],
    lengths: &mut [u32],
    text: &mut [u8],
    ends: &mut [u32],
    posting_counts: &mut [u32],
    posting_ids: &mut [u32],
    position_counts: &mut [u32],
    positions: &mut [u32],
    velocities: &mut [u8],
) -> Reply
    ensures { Replied imported_reply (λ a. BarsImported 16 4 file.now
        (beside (held_lists ids lengths text ends posting_counts posting_ids position_counts positions) velocities.old) a
        (beside (left_lists ids lengths text ends posting_counts posting_ids position_counts positions) velocities.new)) result }
{
    of_imported(midi_bars(
        file,
        ids,
        lengths,
        text,
        ends,
        posting_counts,
        posting_ids,
        position_counts,
        positions,
        velocities,
    ))
}
