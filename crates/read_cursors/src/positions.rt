// A cursor over the positions of a posting, as postings.rt has one over the postings of a list.
ghost use Rattle.std.specs.Prelude.{None, ◌≡◌, drop};
ghost use Rattle.read_cursors.specs.Held.{held_positions};
ghost use Rattle.read_cursors.specs.Steps.{positions_from, EnteredPositions, AdvancedPositions, SoughtPosition};

use crate::postings::Postings;
use crate::values::read_value;
use leb128::varint::{Number, Reader};
use segment::ids::TokenPos;
use segment::refusal::{Reason, Refusal};

// A cursor over a posting's positions: `remaining` are to come, the first of them is `pos`, and the gap after it starts at offset `at`.
#[derive(Clone, Copy)]
pub struct Positions {
    pub at: usize,
    pub remaining: u32,
    pub pos: TokenPos,
}

impl Positions {
    // The cursor at the first of `remaining` positions from the reader on; none remains if that one is refused.
    fn enter(bytes: &[u8], from: Reader, remaining: u32, previous: Option<u32>) -> Positions
        ensures { EnteredPositions bytes.now remaining previous from.at result }
    {
        let none = Positions {
            at: 0,
            remaining: 0,
            pos: TokenPos(0),
        };
        if remaining == 0 {
            return none;
        }
        let Ok(gap) = read_value(
            bytes,
            from,
            previous,
            Refusal::PositionOverflow(0),
            Reason::NonIncreasingPosition,
            0,
        ) else {
            return none;
        };
        Positions {
            at: gap.next.at,
            remaining,
            pos: TokenPos(gap.value),
        }
    }

    // The cursor at the first position of the posting that a cursor is at.
    pub fn start(bytes: &[u8], posting: Postings) -> Positions
        ensures { positions_from bytes.now result ≡ held_positions posting.count None (drop posting.at bytes.now) }
    {
        Positions::enter(bytes, Reader { at: posting.at }, posting.count, None)
    }

    // The cursor advanced by one position.
    pub fn advance(self, bytes: &[u8]) -> Positions
        ensures { AdvancedPositions bytes.now self result }
    {
        if self.remaining == 0 {
            return self;
        }
        Positions::enter(
            bytes,
            Reader { at: self.at },
            self.remaining - 1,
            Some(self.pos.0),
        )
    }

    // The cursor at the first position from here that is at least `target`.
    pub fn seek(self, bytes: &[u8], target: u64) -> Positions
        ensures { SoughtPosition bytes.now target self result }
    {
        let mut c = self;
        while 0 < c.remaining {
            if target <= c.pos.0 as u64 {
                return c;
            }
            c = c.advance(bytes);
        }
        c
    }
}
