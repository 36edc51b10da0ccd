// The ordered near rule.
ghost use Rattle.std.specs.Prelude.{◌≤◌};
ghost use Rattle.ask_match.specs.Steps.{positions_in, Begun, Chained, among};

use crate::tables::seek_in;
use common::widths::wide;
use read_cursors::positions::Positions;

// The chain's start: the position of name 0, or, for a later name, the start that the chain has.
fn begin(i: usize, start: u64, pos: u64) -> u64
    ensures { Begun i start pos result }
{
    if i == 0 { pos } else { start }
}

// Whether some chain of strictly rising positions, one of each of n names in turn, spans at most the window. The cursors are used up.
pub fn ordered_here(bytes: &[u8], n: usize, window: u32, cursors: &mut [Positions; 128]) -> bool
    requires { n ≤ 128 }
    ensures { Chained n window (among bytes.now (positions_in cursors.old)) result }
{
    let mut start: u64 = 0;
    let mut target: u64 = 0;
    let mut i: usize = 0;
    // No index loop: a name that is past the window sends i back to 0.
    while i < n {
        let d = seek_in(bytes, cursors, i, target);
        if d.remaining == 0 {
            return false;
        }
        let place = wide(d.pos.0);
        let first = begin(i, start, place);
        if place <= first + wide(window) {
            start = first;
            target = place + 1;
            i += 1;
        } else {
            start = place - wide(window);
            target = start;
            i = 0;
        }
    }
    true
}
