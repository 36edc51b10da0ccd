// Cursors in a lent table: the one of the name with index i is at place i. The table is lent, so that it is not copied.
ghost use Rattle.std.specs.Prelude.{◌<◌, length};
ghost use Rattle.ask_match.specs.Steps.{positions_in, SoughtIn, PassedIn};

use crate::pass::{Moved, pass};
use read_cursors::positions::Positions;

// Advances the cursor with index i to its first position that is at least the target, and returns it.
pub fn seek_in(bytes: &[u8], cursors: &mut [Positions], i: usize, target: u64) -> Positions
    requires { i < length cursors.old }
    ensures { SoughtIn bytes.now target i (positions_in cursors.old) (positions_in cursors.new) result }
{
    let d = cursors[i].seek(bytes, target);
    cursors[i] = d;
    d
}

// The same, and how many positions were passed.
pub fn pass_in(bytes: &[u8], cursors: &mut [Positions], i: usize, target: u64) -> Moved
    requires { i < length cursors.old }
    ensures { PassedIn bytes.now target i (positions_in cursors.old) (positions_in cursors.new) result }
{
    let moved = pass(bytes, cursors[i], target);
    cursors[i] = moved.to;
    moved
}
