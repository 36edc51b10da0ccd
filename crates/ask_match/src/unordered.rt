// The unordered near rule, with the two tables of document 01: how often each different name is named, and how often it is seen.
ghost use Rattle.std.specs.Prelude.{◌+◌, ◌≤◌};
ghost use Rattle.ask_match.specs.Steps.{positions_in, WindowsFit, WindowsOpen, Found, shows};

use crate::tables::pass_in;
use common::widths::wide;
use read_cursors::positions::Positions;

// An empty window for each of n names: its left edge's cursor is a copy of its right edge's, and nothing is seen.
fn open_windows(n: usize, cursors: &[Positions], first: &mut [Positions], seen: &mut [u32])
    requires { WindowsFit n cursors.now first.old seen.old }
    ensures { WindowsOpen n (positions_in cursors.now) (positions_in first.new) seen.new }
{
    first[..n].copy_from_slice(&cursors[..n]);
    seen[..n].fill(0);
}

// Whether some window + 1 consecutive positions hold, of each of n different names, as many positions as it is named. The cursors are
// used up; the two tables after them are room for the windows, and what they hold on entry does not matter.
pub fn unordered_here(
    bytes: &[u8],
    n: usize,
    window: u32,
    wanted: &[u32; 128],
    cursors: &mut [Positions; 128],
    first: &mut [Positions; 128],
    seen: &mut [u32; 128],
) -> bool
    requires { n ≤ 128 }
    ensures { Found n (shows bytes.now window wanted.now (positions_in cursors.old)) result }
{
    open_windows(n, cursors, first, seen);
    let span = wide(window) + 1;
    let mut start: u64 = 0;
    let mut i: usize = 0;
    // No index loop: a name whose window holds too few sends i back to 0.
    while i < n {
        let right = pass_in(bytes, cursors, i, start + span);
        let left = pass_in(bytes, first, i, start);
        let have = seen[i] + right.passed - left.passed;
        seen[i] = have;
        if wanted[i] <= have {
            i += 1;
        } else {
            if right.to.remaining == 0 {
                return false;
            }
            start = wide(right.to.pos.0) + 1 - span;
            i = 0;
        }
    }
    true
}
