// The starts of a phrase, counted.
ghost use Rattle.std.specs.Prelude.{◌≤◌, ◌<◌};
ghost use Rattle.ask_match.specs.Steps.{positions_in, FoundSoOften, stands};

use crate::tables::seek_in;
use common::widths::wide;
use read_cursors::positions::Positions;

// At how many starts, for each index i below n, start + i is a position of name i: from each that fits on to the next. The cursors
// are used up. There are no more starts than the first name has positions, so the count never wraps.
pub fn starts_here(bytes: &[u8], n: usize, cursors: &mut [Positions; 128]) -> u32
    requires { (0 < n) × (n ≤ 128) }
    ensures { FoundSoOften n (stands bytes.now (positions_in cursors.old)) result }
{
    let first = cursors[0];
    let mut count: u32 = 0;
    let mut start: u64 = 0;
    let mut i: usize = 0;
    // No index loop: a start that is counted, and a name that is past the start, send i back to 0.
    while count < first.remaining {
        let target = start + i as u64;
        let d = seek_in(bytes, cursors, i, target);
        if d.remaining == 0 {
            return count;
        }
        let place = wide(d.pos.0);
        if place == target {
            i += 1;
            if i == n {
                count += 1;
                start += 1;
                i = 0;
            }
        } else {
            start = place - i as u64;
            i = 0;
        }
    }
    count
}
