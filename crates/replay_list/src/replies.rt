// The reply that a call must have.
ghost use Rattle.std.specs.Prelude.{◌≤◌};

use crate::fields::{long_number_at, number_at};
use c_reply::reply::Reply;

// The reply whose first five numbers stand at a place.
pub fn reply_at(case: &[u8], at: usize, third: u64, fourth: u64) -> Reply
    requires { at ≤ 100 }
{
    Reply {
        kind: number_at(case, at),
        which: number_at(case, at + 4),
        index: long_number_at(case, at + 8),
        first: long_number_at(case, at + 16),
        second: long_number_at(case, at + 24),
        third,
        fourth,
    }
}
