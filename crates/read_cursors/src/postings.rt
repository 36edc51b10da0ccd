// A cursor over the postings of a list. It demands nothing of the bytes: where the next posting would be refused, none remains.
ghost use Rattle.std.specs.Prelude.{None, ◌≡◌, drop};
ghost use Rattle.segment.specs.Steps.{id_of};
ghost use Rattle.read_cursors.specs.Held.{held_postings};
ghost use Rattle.read_cursors.specs.Steps.{postings_from, EnteredPostings, AdvancedPostings, ShortAdvanced, SoughtPosting};

use crate::singles::all_single;
use crate::values::{read_value, skip};
use common::widths::{byte, long};
use leb128::varint::{Number, Reader};
use segment::ids::DocId;
use segment::refusal::{Reason, Refusal};

// A cursor over a list: `remaining` postings are to come, the first of them is of document `doc`, and its `count` positions start at
// offset `at`.
#[derive(Clone, Copy)]
pub struct Postings {
    pub at: usize,
    pub count: u32,
    pub remaining: u32,
    pub doc: DocId,
}

impl Postings {
    // The cursor at the first of `remaining` postings from the reader on; none remains if that one is refused.
    fn enter(bytes: &[u8], from: Reader, remaining: u32, previous: Option<DocId>) -> Postings
        ensures { EnteredPostings bytes.now remaining (id_of previous) from.at result }
    {
        let none = Postings {
            at: 0,
            count: 0,
            remaining: 0,
            doc: DocId(0),
        };
        if remaining == 0 {
            return none;
        }
        let Ok(gap) = read_value(
            bytes,
            from,
            previous.map(|id| id.0),
            Refusal::DocIdOverflow(0),
            Reason::NonIncreasingPostingId,
            0,
        ) else {
            return none;
        };
        let Some(count) = gap.next.decode_u32(bytes) else {
            return none;
        };
        Postings {
            at: count.next.at,
            count: count.value,
            remaining,
            doc: DocId(gap.value),
        }
    }

    // The cursor at the first of `df` postings from offset `at` on.
    pub fn start(bytes: &[u8], at: usize, df: u32) -> Postings
        ensures { postings_from bytes.now result ≡ held_postings df None (drop at bytes.now) }
    {
        Postings::enter(bytes, Reader { at }, df, None)
    }

    // The cursor advanced by one posting, number by number; its positions are skipped.
    fn advance_each(self, bytes: &[u8]) -> Postings
        ensures { AdvancedPostings bytes.now self result }
    {
        if self.remaining == 0 {
            return self;
        }
        let past = skip(bytes, Reader { at: self.at }, self.count);
        Postings::enter(bytes, past, self.remaining - 1, Some(self.doc))
    }

    // The cursor advanced by one posting, where its positions and the next posting's gap and count take a byte each, and that posting is
    // sure to be accepted.
    fn advance_short(self, bytes: &[u8]) -> Option<Postings>
        ensures { ShortAdvanced bytes.now self result }
    {
        let n = long(self.count);
        if !all_single(bytes, self.at, n + 2) {
            return None;
        }
        let past = self.at + n;
        let gap = byte(bytes[past]);
        let count = byte(bytes[past + 1]);
        if self.remaining <= 1 || gap == 0 || u32::MAX - self.doc.0 < gap {
            return None;
        }
        Some(Postings {
            at: past + 2,
            count,
            remaining: self.remaining - 1,
            doc: DocId(self.doc.0 + gap),
        })
    }

    // The cursor advanced by one posting: at once where all is short, else number by number.
    pub fn advance(self, bytes: &[u8]) -> Postings
        ensures { AdvancedPostings bytes.now self result }
    {
        match self.advance_short(bytes) {
            Some(next) => next,
            None => self.advance_each(bytes),
        }
    }

    // The cursor at the first posting from here whose document is at least `target`.
    pub fn seek(self, bytes: &[u8], target: u64) -> Postings
        ensures { SoughtPosting bytes.now target self result }
    {
        let mut c = self;
        while 0 < c.remaining {
            if target <= c.doc.0 as u64 {
                return c;
            }
            // `advance`, written out: `advance_each` then stays a call of its own, and the cursor stays in registers. Each way stores it
            // by itself: `c = match ..` would take every cursor through a second place on the stack.
            match c.advance_short(bytes) {
                Some(next) => {
                    c = next;
                }
                None => {
                    c = c.advance_each(bytes);
                }
            }
        }
        c
    }
}
