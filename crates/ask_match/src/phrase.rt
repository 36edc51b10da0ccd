// The phrase rule.
ghost use Rattle.std.specs.Prelude.{◌≤◌};
ghost use Rattle.ask_match.specs.Steps.{positions_in, Found, stands};

use crate::tables::seek_in;
use common::widths::wide;
use read_cursors::positions::Positions;

// Whether there is a start such that, for each index i below n, start + i is a position of name i. The cursors are used up.
pub fn phrase_here(bytes: &[u8], n: usize, cursors: &mut [Positions; 128]) -> bool
    requires { n ≤ 128 }
    ensures { Found n (stands bytes.now (positions_in cursors.old)) result }
{
    let mut start: u64 = 0;
    let mut i: usize = 0;
    // No index loop: a name that is past the start sends i back to 0.
    while i < n {
        let target = start + i as u64;
        let d = seek_in(bytes, cursors, i, target);
        if d.remaining == 0 {
            return false;
        }
        let place = wide(d.pos.0);
        if place == target {
            i += 1;
        } else {
            start = place - i as u64;
            i = 0;
        }
    }
    true
}
