// One sound of a bar, as text. Each `put_` returns the offset past what it stored.
ghost use Rattle.std.specs.Prelude.{None, ◌≡◌, ◌+◌, ◌≤◌, ◌<◌, length, drop};
ghost use Rattle.common.specs.Stores.{Stored};
ghost use Rattle.read_cursors.specs.Held.{held_positions};
ghost use Rattle.read_cursors.specs.Steps.{positions_from};
ghost use Rattle.calls.specs.Listing.{name_column};
ghost use Rattle.calls.specs.Sheet.{marks, sound_line};
ghost use Rattle.show_steps.specs.Steps.{mark_at};

use read_cursors::positions::Positions;
use read_cursors::postings::Postings;
use show_columns::put::{put_hits, put_name};
use show_listing::list::put_end;

// The mark of a step, from a cursor at the first hit that is not before it.
fn step_mark(c: Positions, len: u32, step: u32) -> u8
    ensures { result ≡ mark_at c len step }
{
    if 0 < c.remaining && c.pos.0 == step {
        return 111;
    }
    if step < len {
        return 46;
    }
    32
}

// The 64 steps of a bar.
fn put_steps(bytes: &[u8], hits: Positions, len: u32, out: &mut [u8], at: usize) -> usize
    requires { at + 64 ≤ length out.old }
    ensures { Stored (marks len (positions_from bytes.now hits) 64 0) at out.old result out.new }
{
    let mut c = hits;
    for step in 0..64 {
        out[at + step as usize] = step_mark(c, len, step);
        c = c.seek(bytes, step as u64 + 1);
    }
    at + 64
}

// How many characters of a name are on paper.
pub const NAME_WIDTH: usize = 12;

// How many bytes the line has behind the name: 64 steps, 4 columns, the line feed.
pub const BEHIND_NAME: usize = 69;

// A sound's line: its name, its steps, how many hits, the line's end.
pub fn put_sound(
    bytes: &[u8],
    here: Postings,
    len: u32,
    name: &[u8],
    out: &mut [u8],
    at: usize,
) -> usize
    requires { (here.count < 100)
        × (length (held_positions here.count None (drop here.at bytes.now)) ≡ here.count)
        × (at + length (name_column 12 name.now) + 69 ≤ length out.old) }
    ensures { Stored
        (sound_line len name.now (held_positions here.count None (drop here.at bytes.now)))
        at out.old result out.new }
{
    let steps = put_name(out, at, name, NAME_WIDTH);
    let hits = put_steps(bytes, Positions::start(bytes, here), len, out, steps);
    let end = put_hits(out, hits, here.count);
    put_end(out, end)
}
