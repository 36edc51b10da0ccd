// Whether the words are a pad: kind 20.
ghost use Rattle.std.specs.Prelude.{None, Option, ◌≡◌, ◌+◌, ◌*◌, ◌≤◌, length, drop};
ghost use Rattle.segment.specs.Records.{rises};
ghost use Rattle.pad_map.specs.Bars.{with_velocity};
ghost use Rattle.pad_map.specs.Rules.{hit_fine as hit_rule, hits_fine as hits_rule};
ghost use Rattle.pad_words.specs.Words.{hits_of};
ghost use Rattle.pad_words.specs.Whole.{whole};

use crate::layout::{BARS, HITS, VELOCITY_UNIT, WORDS};
use common::widths::long;
use pad_map::Key;
use pad_rules::order::follows;

// One hit of a bar; the first follows none.
fn hit_fine(length: u32, previous: Option<Key>, hit: Key, velocity: u32) -> bool
    ensures { result ≡ hit_rule length previous (with_velocity hit velocity) }
{
    hit.sound <= 127
        && 1 <= velocity
        && velocity <= 127
        && follows(previous, hit)
        && hit.step < length
}

// The hits of a bar, from an offset on.
fn hits_fine(pad: &[u32], from: usize, count: usize, len: u32) -> bool
    requires { from + 2 * count ≤ length pad.now }
    ensures { result ≡ hits_rule len None (hits_of count (drop from pad.now)) }
{
    let mut previous = None;
    for i in 0..count {
        let at = from + 2 * i;
        let word = pad[at];
        let hit = Key {
            sound: word % VELOCITY_UNIT,
            step: pad[at + 1],
        };
        if !hit_fine(len, previous, hit, word / VELOCITY_UNIT) {
            return false;
        }
        previous = Some(hit);
    }
    true
}

// An id above the one before; the first follows none.
fn id_rises(previous: Option<u32>, id: u32) -> bool
    ensures { result ≡ rises previous id }
{
    previous.is_none_or(|before| before < id)
}

// Whether the words are a pad, whatever their number and values. Counts are taken off what remains of word 1 and never added up, so that no
// sum wraps and no hit is read beyond the pad's places.
pub fn is_whole(pad: &[u32]) -> bool
    ensures { result ≡ whole pad.now }
{
    if pad.len() != WORDS {
        return false;
    }
    let count = long(pad[0]);
    let mut remaining = long(pad[1]);
    if BARS < count || HITS < remaining {
        return false;
    }
    let mut at = 2;
    let mut previous = None;
    for _ in 0..count {
        let id = pad[at];
        let len = pad[at + 1];
        let hits = long(pad[at + 2]);
        if !id_rises(previous, id) || remaining < hits || !hits_fine(pad, at + 3, hits, len) {
            return false;
        }
        previous = Some(id);
        remaining -= hits;
        at += 3 + 2 * hits;
    }
    remaining == 0
}
