// A bar saved.
ghost use Rattle.pad_record.specs.Promise.{BarSaved};

use crate::put::put_bar;
use common::widths::long;
use pad_rules::lists::check_hits_of;
use pad_words::check::is_whole;
use pad_words::layout::{BARS, HITS};
use pad_words::place::place_of;
use segment::refusal::Refusal;

// How many hits the bar has, which is held from now on; the bars behind its offset move up. Or 20; 18; 12, 11, a sound above 127 (12), a
// velocity outside 1 to 127 (22), hit order (6/20), a step not below the length (6/21); 19, which leave every word as it was.
pub fn pad_save(
    pad: &mut [u32],
    id: u32,
    length: u32,
    sounds: &[u8],
    steps: &[u32],
    velocities: &[u8],
) -> Result<usize, Refusal>
    ensures { BarSaved pad.old id length sounds.now steps.now velocities.now result pad.new }
{
    if !is_whole(pad) {
        return Err(Refusal::BrokenPad);
    }
    let Err(at) = place_of(pad, id) else {
        return Err(Refusal::AlreadyHeld);
    };
    check_hits_of(length, sounds, steps, velocities)?;
    let bars = long(pad[0]);
    let total = long(pad[1]);
    let count = sounds.len();
    if BARS <= bars || HITS < total + count {
        return Err(Refusal::PadFull);
    }
    put_bar(
        pad,
        at,
        2 + 3 * bars + 2 * total,
        id,
        length,
        sounds,
        steps,
        velocities,
    );
    pad[0] = (bars + 1) as u32;
    pad[1] = (total + count) as u32;
    Ok(count)
}
