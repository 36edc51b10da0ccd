// The filling pass: each hit stored in the part of the lists that belongs to its sound.
ghost use Rattle.std.specs.Prelude.{◌≡◌, ◌+◌, ◌≤◌};
ghost use Rattle.midi_fill.specs.Stores.{in_last, loud_last, buffers, stored};
ghost use Rattle.midi_fill.specs.Promise.{Puttable, Fillable, Filled};

use midi_count::count::{Tables, does_open, is_fresh};
use midi_read::track::{Reader, Step};

// A new bar begins with the new position, else it is one more.
fn in_last_bar(more: u64, new: u64, before: u64) -> u64
    requires { before + new ≤ 16777217 }
    ensures { result ≡ in_last more new before }
{
    if more == 0 {
        return before + new;
    }
    new
}

// Of equal hits the loudest; a new step begins with its hit.
fn loudest_on_step(new: u64, held: u8, velocity: u8) -> u8
    ensures { result ≡ loud_last new held velocity }
{
    if new != 0 {
        return velocity;
    }
    held.max(velocity)
}

// A hit of a sound on a step, noted in the tables and stored in the lists.
fn put_hit(
    tables: &mut Tables,
    inside: &mut [u64; 128],
    loud: &mut [u8; 128],
    starts: &[u64; 128],
    marks: &[u64; 128],
    ids: &mut [u32],
    counts: &mut [u32],
    places: &mut [u32],
    velocities: &mut [u8],
    note: usize,
    step: u64,
    bar: u64,
    steps: u64,
    velocity: u8,
)
    requires { Puttable starts.now marks.now note step bar steps
        (buffers tables.old.last tables.old.postings tables.old.positions inside.old loud.old ids.old counts.old places.old
        velocities.old) }
    ensures { buffers tables.new.last tables.new.postings tables.new.positions inside.new loud.new ids.new counts.new places.new
        velocities.new
        ≡ stored starts.now marks.now note step steps velocity
        (buffers tables.old.last tables.old.postings tables.old.positions inside.old loud.old ids.old counts.old places.old
        velocities.old) }
{
    let before = tables.last[note];
    let more = does_open(before, step, bar, steps);
    let new = is_fresh(before, step);
    let held = tables.postings[note] + more;
    let marked = tables.positions[note] + new;
    let count = in_last_bar(more, new, inside[note]);
    let loudest = loudest_on_step(new, loud[note], velocity);
    let a = (starts[note] + held - 1) as usize;
    let b = (marks[note] + marked - 1) as usize;
    tables.last[note] = step + 1;
    tables.postings[note] = held;
    tables.positions[note] = marked;
    inside[note] = count;
    loud[note] = loudest;
    ids[a] = bar as u32;
    counts[a] = count as u32;
    places[b] = (step - bar * steps) as u32;
    velocities[b] = loudest;
}

// The hits of a file that was counted, stored; the tables are handed in empty.
pub fn fill(
    s: &[u8],
    ticks: u64,
    steps: u64,
    tables: &mut Tables,
    inside: &mut [u64; 128],
    loud: &mut [u8; 128],
    starts: &[u64; 128],
    marks: &[u64; 128],
    ids: &mut [u32],
    counts: &mut [u32],
    places: &mut [u32],
    velocities: &mut [u8],
)
    requires { Fillable s.now ticks steps starts.now marks.now
        (buffers tables.old.last tables.old.postings tables.old.positions inside.old loud.old ids.old counts.old places.old
        velocities.old) }
    ensures { Filled s.now ticks steps starts.now marks.now
        (buffers tables.old.last tables.old.postings tables.old.positions inside.old loud.old ids.old counts.old places.old velocities.old)
        (buffers tables.new.last tables.new.postings tables.new.positions inside.new loud.new ids.new counts.new places.new
        velocities.new) }
{
    let mut reader = Reader {
        at: 22,
        running: 0,
        tick: 0,
    };
    // The events say where the next one stands and which is the last, so this is no `for`.
    loop {
        // Not reached: the count refused such a file.
        let Ok(event) = reader.step(s) else {
            return;
        };
        match event {
            Step::Sounds(h, next) => {
                let step = h.tick / ticks;
                let bar = step / steps;
                // Not reached: the count refused such a file.
                if 65535 < bar {
                    return;
                }
                let note = h.note as usize;
                let velocity = h.velocity as u8;
                put_hit(
                    tables, inside, loud, starts, marks, ids, counts, places, velocities, note,
                    step, bar, steps, velocity,
                );
                reader = next;
            }
            Step::Silent(next) => {
                reader = next;
            }
            Step::Ends(_) => {
                return;
            }
        }
    }
}
