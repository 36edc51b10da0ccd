// Values that are stored as gaps and rise: posting ids and positions. The first gap is the value itself.
ghost use Rattle.std.specs.Prelude.{◌≡◌, drop};
ghost use Rattle.segment.specs.Refusals.{invalid_layout};
ghost use Rattle.segment.specs.Postings.{read_value};
ghost use Rattle.read_cursors.specs.Steps.{value_means, read_rising};
ghost use Rattle.read_cursors.specs.Held.{skipped};

use crate::singles::all_single;
use common::widths::long;
use leb128::varint::{Number, Reader};
use segment::refusal::{Reason, Refusal, Section};

// The value at the reader: the number (else `malformed`), overflow (refused by `overflow`), order (by `order`). It serves document ids and
// positions alike, so it takes and returns plain u32; its callers make `DocId` and `TokenPos`.
pub fn read_rising<E: Copy>(
    list: &[u8],
    from: Reader,
    previous: Option<u32>,
    malformed: E,
    overflow: E,
    order: E,
) -> Result<Number, E>
    ensures { value_means list.now result ≡ read_rising malformed overflow order previous (drop from.at list.now) }
{
    let Some(gap) = from.decode_u32(list) else {
        return Err(malformed);
    };
    let Some(before) = previous else {
        return Ok(gap);
    };
    if u32::MAX - before < gap.value {
        return Err(overflow);
    }
    let value = before + gap.value;
    if value <= before {
        return Err(order);
    }
    Ok(Number {
        value,
        next: gap.next,
    })
}

// The value at the reader: the number, overflow (refused by `overflow`), order (for reason `order`).
pub fn read_value(
    list: &[u8],
    from: Reader,
    previous: Option<u32>,
    overflow: Refusal,
    order: Reason,
    index: u64,
) -> Result<Number, Refusal>
    ensures { value_means list.now result ≡ read_value overflow (invalid_layout order) index previous (drop from.at list.now) }
{
    read_rising(
        list,
        from,
        previous,
        Refusal::InvalidVarint(Section::Postings, index),
        overflow,
        Refusal::InvalidLayout(order),
    )
}

// The reader after `count` numbers, or at the first malformed one, number by number.
fn skip_each(list: &[u8], from: Reader, count: u32) -> Reader
    ensures { drop result.at list.now ≡ skipped count (drop from.at list.now) }
{
    let mut reader = from;
    for _ in 0..count {
        let Some(number) = reader.decode_u32(list) else {
            return reader;
        };
        reader = number.next;
    }
    reader
}

// The reader after `count` numbers, or at the first malformed one: at once where they take a byte each.
pub fn skip(list: &[u8], from: Reader, count: u32) -> Reader
    ensures { drop result.at list.now ≡ skipped count (drop from.at list.now) }
{
    let n = long(count);
    if all_single(list, from.at, n) {
        return Reader { at: from.at + n };
    }
    skip_each(list, from, count)
}
