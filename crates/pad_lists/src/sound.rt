// The postings of one sound: each bar that has it, by rising id, with the steps of its hits of that sound.
ghost use Rattle.std.specs.Prelude.{◌≡◌, cond, ◌+◌, ◌<◌, ltb, drop};
ghost use Rattle.common.specs.Stores.{Stored};
ghost use Rattle.pad_words.specs.Words.{hits_of};
ghost use Rattle.pad_lists.specs.Steps.{leading, RunFits, SoundFits, SoundGathered};

use common::widths::long;
use pad_words::layout::VELOCITY_UNIT;

// How many postings the sound has, and positions in all.
#[derive(Clone, Copy)]
pub struct Gathered {
    pub postings: usize,
    pub positions: usize,
}

// The steps of the hits from an offset on, as far as they are of the sound; answers the offset past them.
fn gather_run(
    pad: &[u32],
    from: usize,
    remaining: usize,
    sound: u32,
    positions: &mut [u32; 8192],
    filled: usize,
) -> usize
    requires { RunFits pad.now from remaining positions.old filled }
    ensures { Stored (leading sound (hits_of remaining (drop from pad.now))) filled positions.old result positions.new }
{
    for taken in 0..remaining {
        let at = from + 2 * taken;
        if pad[at] % VELOCITY_UNIT != sound {
            return filled + taken;
        }
        positions[filled + taken] = pad[at + 1];
    }
    filled + remaining
}

// The next posting's place: a bar without the sound has no posting.
fn past_posting(postings: usize, count: usize) -> usize
    requires { postings < 256 }
    ensures { result ≡ cond (ltb 0 count) (postings + 1) postings }
{
    if 0 < count { postings + 1 } else { postings }
}

// The postings of the sound; each bar's cursor is taken past its hits of that sound. A bar's posting is stored in any case, and where it
// has no positions the next bar's takes its place.
pub fn gather_sound(
    pad: &[u32],
    sound: u32,
    cursors: &mut [u32; 256],
    posting_ids: &mut [u32; 256],
    counts: &mut [u32; 256],
    positions: &mut [u32; 8192],
) -> Gathered
    requires { SoundFits pad.now sound cursors.old posting_ids.old counts.old positions.old }
    ensures { SoundGathered pad.now sound result cursors.new posting_ids.new counts.new positions.new }
{
    let bars = long(pad[0]);
    let mut at = 2;
    let mut postings = 0;
    let mut filled = 0;
    for i in 0..bars {
        let hits = long(pad[at + 2]);
        let done = long(cursors[i]);
        let next = gather_run(
            pad,
            at + 3 + 2 * done,
            hits - done,
            sound,
            positions,
            filled,
        );
        let count = next - filled;
        posting_ids[postings] = pad[at];
        counts[postings] = count as u32;
        cursors[i] = (done + count) as u32;
        postings = past_posting(postings, count);
        filled = next;
        at += 3 + 2 * hits;
    }
    Gathered {
        postings,
        positions: filled,
    }
}
