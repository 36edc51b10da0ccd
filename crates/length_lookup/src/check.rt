// The refusals of a caller's lists: kinds 12 and 11, then 21 over the whole list of ids.
ghost use Rattle.std.specs.Prelude.{None, ◌≡◌};
ghost use Rattle.segment.specs.Steps.{checked};
ghost use Rattle.length_lookup.specs.Lookup.{check_ids, check_ids_and_lengths};

use segment::refusal::{LIMIT, Refusal};

// Every id is above the one before it, which is kept at hand: each is loaded once.
#[tactic(auto, unfolding(crate::specs::Lookup::check_ids))]
fn check_rising(ids: &[u32]) -> Result<(), Refusal>
    ensures { result ≡ checked (check_ids 0 None ids.now) }
{
    if ids.is_empty() {
        return Ok(());
    }
    let mut before = ids[0];
    for i in 1..ids.len() {
        let here = ids[i];
        if here <= before {
            return Err(Refusal::IdsNotRising(i));
        }
        before = here;
    }
    Ok(())
}

// All that is refused of the lists, whatever id is asked: 12, 11, 21.
#[tactic(auto, unfolding(crate::specs::Lookup::check_ids_and_lengths))]
pub fn check_ids_and_lengths(ids: &[u32], lengths: &[u32]) -> Result<(), Refusal>
    ensures { result ≡ checked (check_ids_and_lengths ids.now lengths.now) }
{
    if LIMIT < ids.len() || LIMIT < lengths.len() {
        return Err(Refusal::TooLarge);
    }
    if ids.len() != lengths.len() {
        return Err(Refusal::ListShape);
    }
    check_rising(ids)
}
