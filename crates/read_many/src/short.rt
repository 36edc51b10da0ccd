// Short postings, told by one word: most have few positions, and each of their numbers takes a byte. Whatever is not sure here is read
// number by number.
ghost use Rattle.std.specs.Prelude.{IfSome, ◌≡◌, ◌*◌, ◌^◌, ◌≤◌};
ghost use Rattle.read_many.specs.Steps.{Short};

use common::widths::long;
use segment::fixed::read_usize_at;

// Where the bytes behind so many begin: a word's quotient by it is those bytes, the remainder the ones before.
fn past_bytes(count: usize) -> usize
    requires { count ≤ 6 }
    ensures { result ≡ 2 ^ (8 * count) }
{
    1usize << (8 * count)
}

// The number of positions of a short posting in a document of length len; none where not sure. Of the word's bytes the first is the number
// of positions, then come their gaps, then the gap of the next posting. Sure is: one to six positions, their gaps below 32 and above 0 but
// for the first, the last position below the length, the next gap of one byte and above 0.
// A byte below 128 that is above 0 has its high bit set when 127 is added. 256 is 1 modulo 255, so a word of few low bytes is their sum.
pub fn short_posting(list: &[u8], at: usize, len: u32) -> Option<usize>
    ensures { IfSome result (Short list.now at len) }
{
    if list.len() <= at || list.len() - at < 8 {
        return None;
    }
    let word = read_usize_at(list, at);
    let count = word % 256;
    if count == 0 || 6 < count {
        return None;
    }
    let rest = word / 256;
    let end = past_bytes(count);
    let gaps = rest % end;
    if gaps & 0xE0E0_E0E0_E0E0 != 0 {
        return None;
    }
    let highs = 0x8080_8080_8080usize >> (56 - 8 * count);
    if (gaps / 256 + 0x7F_7F7F_7F7F) & highs != highs {
        return None;
    }
    if long(len) <= gaps % 255 {
        return None;
    }
    let next = rest / end % 256;
    if next == 0 || 127 < next {
        return None;
    }
    Some(count)
}
