// The tests of the lists handed to saving, each over all hits before the next.
ghost use Rattle.std.specs.Prelude.{None, ◌≡◌, length};
ghost use Rattle.segment.specs.Steps.{checked};
ghost use Rattle.pad_map.specs.Rules.{all_up_to, all_audible, hits_rise, all_below, check_hits};

use crate::order::follows;
use pad_map::Key;
use segment::refusal::{LIMIT, Reason, Refusal};

// The highest sound.
pub const HIGHEST_SOUND: u8 = 127;

// Velocities are 1 to 127.
pub const LOWEST_VELOCITY: u8 = 1;

pub const HIGHEST_VELOCITY: u8 = 127;

// Whether every number is at most `high`.
fn is_up_to(xs: &[u8], high: u8) -> bool
    ensures { result ≡ all_up_to high xs.now }
{
    xs.iter().all(|x| *x <= high)
}

// Whether every velocity is from 1 to 127.
fn is_audible(velocities: &[u8]) -> bool
    ensures { result ≡ all_audible velocities.now }
{
    velocities
        .iter()
        .all(|v| LOWEST_VELOCITY <= *v && *v <= HIGHEST_VELOCITY)
}

// Whether hits rise strictly by sound, then step.
fn is_rising(sounds: &[u8], steps: &[u32]) -> bool
    requires { length sounds.now ≡ length steps.now }
    ensures { result ≡ hits_rise None sounds.now steps.now }
{
    let mut previous = None;
    for (i, sound) in sounds.iter().enumerate() {
        let hit = Key {
            sound: u32::from(*sound),
            step: steps[i],
        };
        if !follows(previous, hit) {
            return false;
        }
        previous = Some(hit);
    }
    true
}

// Whether every step is below the length.
fn is_below(steps: &[u32], len: u32) -> bool
    ensures { result ≡ all_below len steps.now }
{
    steps.iter().all(|step| *step < len)
}

// Kinds 12, 11, 12 for a sound above 127, 22 for a velocity outside 1 to 127, 6 for the order, 6 for a step that is not below the length.
pub fn check_hits_of(
    len: u32,
    sounds: &[u8],
    steps: &[u32],
    velocities: &[u8],
) -> Result<(), Refusal>
    ensures { result ≡ checked (check_hits len sounds.now steps.now velocities.now) }
{
    if sounds.len().max(steps.len()).max(velocities.len()) > LIMIT {
        return Err(Refusal::TooLarge);
    }
    if sounds.len() != steps.len() || sounds.len() != velocities.len() {
        return Err(Refusal::ListShape);
    }
    if !is_up_to(sounds, HIGHEST_SOUND) {
        return Err(Refusal::TooLarge);
    }
    if !is_audible(velocities) {
        return Err(Refusal::VelocityRange);
    }
    if !is_rising(sounds, steps) {
        return Err(Refusal::InvalidLayout(Reason::PositionsNotIncreasing));
    }
    if !is_below(steps, len) {
        return Err(Refusal::InvalidLayout(Reason::WrittenPositionExceedsLength));
    }
    Ok(())
}
