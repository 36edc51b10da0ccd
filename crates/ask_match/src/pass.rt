// A cursor advanced to a target, and how many positions it passed.
ghost use Rattle.ask_match.specs.Steps.{Passed};

use common::widths::wide;
use read_cursors::positions::Positions;

#[derive(Clone, Copy)]
pub struct Moved {
    pub to: Positions,
    pub passed: u32,
}

// Returns the cursor at its first position that is not below the target, and how many positions were passed.
pub fn pass(bytes: &[u8], from: Positions, target: u64) -> Moved
    ensures { Passed bytes.now target from result }
{
    let mut to = from;
    let mut passed = 0;
    // The loop moves a cursor, as `Positions::seek` does.
    while 0 < to.remaining {
        if target <= wide(to.pos.0) {
            return Moved { to, passed };
        }
        to = to.advance(bytes);
        passed += 1;
    }
    Moved { to, passed }
}
