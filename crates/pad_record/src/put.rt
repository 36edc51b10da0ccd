// A bar's words stored.
ghost use Rattle.std.specs.Prelude.{◌≡◌, ◌+◌, ◌*◌};
ghost use Rattle.pad_map.specs.Bars.{hits_in};
ghost use Rattle.pad_words.specs.Words.{hit_words};
ghost use Rattle.pad_record.specs.Steps.{Put, HitsRoom, BarRoom, BarPut};

use pad_words::layout::VELOCITY_UNIT;

// A hit's first word.
fn first_word(sound: u8, velocity: u8) -> u32
    ensures { result ≡ sound + 256 * velocity }
{
    u32::from(sound) + VELOCITY_UNIT * u32::from(velocity)
}

// The hits from an offset on.
pub fn put_hits(pad: &mut [u32], at: usize, sounds: &[u8], steps: &[u32], velocities: &[u8])
    requires { HitsRoom pad.old at sounds.now steps.now velocities.now }
    ensures { Put (hit_words (hits_in sounds.now steps.now velocities.now)) at pad.old pad.new }
{
    for i in 0..sounds.len() {
        let next = at + 2 * i;
        pad[next] = first_word(sounds[i], velocities[i]);
        pad[next + 1] = steps[i];
    }
}

// Room made for a bar by moving up the words behind its offset, and its words put there.
pub fn put_bar(
    pad: &mut [u32],
    at: usize,
    end: usize,
    id: u32,
    len: u32,
    sounds: &[u8],
    steps: &[u32],
    velocities: &[u8],
)
    requires { BarRoom pad.old at end sounds.now steps.now velocities.now }
    ensures { BarPut pad.old at end id len sounds.now steps.now velocities.now pad.new }
{
    let count = sounds.len();
    pad.copy_within(at..end, at + (3 + 2 * count));
    pad[at] = id;
    pad[at + 1] = len;
    pad[at + 2] = count as u32;
    put_hits(pad, at + 3, sounds, steps, velocities);
}
