// A bar read back: its length, and its hits into three lent lists.
ghost use Rattle.std.specs.Prelude.{◌≡◌, drop};
ghost use Rattle.pad_words.specs.Words.{hits_of};
ghost use Rattle.pad_read.specs.Promise.{BarReadBack};
ghost use Rattle.pad_read.specs.Steps.{low_byte, Fillable, HitsFilled};

use common::widths::long;
use pad_words::check::is_whole;
use pad_words::layout::VELOCITY_UNIT;
use pad_words::place::place_of;
use segment::refusal::Refusal;
use segment::replies::BarRead;

// The low byte: of a hit's first word its sound, of that word / 256 its velocity, which is at most 127 where the words are a pad.
fn narrow(x: u32) -> u8
    ensures { result ≡ low_byte x }
{
    (x % 256) as u8
}

// The hits from an offset on, at the front of the three lists.
fn fill_hits(
    pad: &[u32],
    from: usize,
    count: usize,
    sounds: &mut [u8],
    steps: &mut [u32],
    velocities: &mut [u8],
)
    requires { Fillable pad.now from count sounds.old steps.old velocities.old }
    ensures { HitsFilled (hits_of count (drop from pad.now)) sounds.old steps.old velocities.old
        sounds.new steps.new velocities.new }
{
    for i in 0..count {
        let at = from + 2 * i;
        let word = pad[at];
        sounds[i] = narrow(word);
        steps[i] = pad[at + 1];
        velocities[i] = narrow(word / VELOCITY_UNIT);
    }
}

// A held bar: how many hits it has and its length, and its hits at the front of the three lists. Or 20; 16; 13 for the sounds, then for the
// steps, then for the velocities, which leave all three lists as they were.
pub fn pad_read(
    pad: &[u32],
    id: u32,
    sounds: &mut [u8],
    steps: &mut [u32],
    velocities: &mut [u8],
) -> Result<BarRead, Refusal>
    ensures { BarReadBack pad.now id sounds.old steps.old velocities.old
        result sounds.new steps.new velocities.new }
{
    if !is_whole(pad) {
        return Err(Refusal::BrokenPad);
    }
    let Ok(at) = place_of(pad, id) else {
        return Err(Refusal::UnknownBar);
    };
    let len = pad[at + 1];
    let count = long(pad[at + 2]);
    if sounds.len() < count {
        return Err(Refusal::NoRoom(1, count));
    }
    if steps.len() < count {
        return Err(Refusal::NoRoom(2, count));
    }
    if velocities.len() < count {
        return Err(Refusal::NoRoom(3, count));
    }
    fill_hits(pad, at + 3, count, sounds, steps, velocities);
    Ok(BarRead { hits: count, len })
}
