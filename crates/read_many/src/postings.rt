// One posting of a list passed, number by number. What is not in order is not told apart: the refusal is for the crate read_lists to say.
ghost use Rattle.std.specs.Prelude.{IfSome, ◌≡◌, ◌<◌, drop};
ghost use Rattle.leb128.specs.Promise.{decoded_at};
ghost use Rattle.read_many.specs.Steps.{Placed, Posted, Stepped};

use crate::short::short_posting;
use common::widths::{byte, wide};
use leb128::varint::{Number, Reader};

// The number at an offset, and the reader past it. Most numbers have one byte: they are read here.
pub fn number(list: &[u8], at: usize) -> Option<Number>
    ensures { result ≡ decoded_at list.now at }
{
    if at < list.len() {
        let value = byte(list[at]);
        if value < 128 {
            return Some(Number {
                value,
                next: Reader { at: at + 1 },
            });
        }
    }
    Reader { at }.decode_u32(list)
}

// Past `count` position gaps of a posting in a document of length len; none where a number is missing or the positions are not in order.
fn past_gaps(list: &[u8], at: usize, count: u32, len: u32) -> Option<usize>
    ensures { IfSome result (λ past. Placed count len (drop at list.now) (drop past list.now)) }
{
    let mut next = at;
    let mut last: u64 = 0;
    for i in 0..count {
        let gap = number(list, next)?;
        if gap.value == 0 && 0 < i {
            return None;
        }
        last += wide(gap.value);
        if wide(len) <= last {
            return None;
        }
        next = gap.next.at;
    }
    Some(next)
}

// Past the number of positions of a posting and its positions; none where not sure.
fn past_positions(list: &[u8], at: usize, len: u32) -> Option<usize>
    ensures { IfSome result (λ past. Posted len (drop at list.now) (drop past list.now)) }
{
    let count = number(list, at)?;
    if count.value == 0 {
        return None;
    }
    past_gaps(list, count.next.at, count.value, len)
}

// Where the check of a list stands: past the gap of a posting, whose document is doc; how many postings remain, with this one.
#[derive(Clone, Copy)]
pub struct Cursor {
    pub at: usize,
    pub doc: u32,
    pub remaining: u32,
}

// The cursor past one posting and the gap of the next, if the posting's document has this length, number by number; none where not sure.
fn past_posting_each(list: &[u8], from: Cursor, len: u32) -> Option<Cursor>
    requires { 0 < from.remaining }
    ensures { IfSome result (Stepped list.now len from) }
{
    let past = past_positions(list, from.at, len)?;
    if from.remaining == 1 {
        return Some(Cursor {
            at: past,
            doc: from.doc,
            remaining: 0,
        });
    }
    let gap = number(list, past)?;
    if gap.value == 0 || u32::MAX - from.doc < gap.value {
        return None;
    }
    Some(Cursor {
        at: gap.next.at,
        doc: from.doc + gap.value,
        remaining: from.remaining - 1,
    })
}

// The cursor past one posting and the gap of the next, if the posting's document has this length; none where not sure.
pub fn past_posting(list: &[u8], from: Cursor, len: u32) -> Option<Cursor>
    requires { 0 < from.remaining }
    ensures { IfSome result (Stepped list.now len from) }
{
    if from.remaining == 1 {
        return past_posting_each(list, from, len);
    }
    let Some(count) = short_posting(list, from.at, len) else {
        return past_posting_each(list, from, len);
    };
    let past = from.at + 1 + count;
    let gap = byte(list[past]);
    if u32::MAX - from.doc < gap {
        return None;
    }
    Some(Cursor {
        at: past + 1,
        doc: from.doc + gap,
        remaining: from.remaining - 1,
    })
}
