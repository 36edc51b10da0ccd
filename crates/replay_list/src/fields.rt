// The numbers of a case, and the parts of its data. A part is named by the place of its size in the case's head.
ghost use Rattle.std.specs.Prelude.{◌≤◌};

use common::widths::long;
use segment::fixed::{read_u32_at, read_usize_at};

// The u32 at a place; 0 where the bytes end before.
pub fn number_at(s: &[u8], at: usize) -> u32 {
    if s.len() < 4 {
        return 0;
    }
    if s.len() - 4 < at {
        return 0;
    }
    read_u32_at(s, at)
}

// The u64 at a place; 0 where the bytes end before.
pub fn long_number_at(s: &[u8], at: usize) -> u64 {
    if s.len() < 8 {
        return 0;
    }
    if s.len() - 8 < at {
        return 0;
    }
    read_usize_at(s, at) as u64
}

// How many elements a part has.
pub fn size_of(case: &[u8], part: usize) -> usize {
    long(number_at(case, part))
}

// A part's size as a length in a buffer, which a whole case does not exceed.
pub fn size_within(case: &[u8], part: usize, most: usize) -> usize
    ensures { result ≤ most }
{
    size_of(case, part).min(most)
}

// How many elements the parts from one to before another have. No sum of so few u32 wraps.
pub fn sizes(case: &[u8], from: usize, to: usize) -> usize
    requires { to ≤ 100 }
{
    let mut sum: usize = 0;
    for part in (from..to).step_by(4) {
        sum = std::num::wrapping_add_usize(sum, size_of(case, part));
    }
    sum
}

// So many bytes from a place on; none where they do not lie in the case.
pub fn bytes_at(case: &[u8], from: usize, size: usize) -> &[u8] {
    let to = std::num::wrapping_add_usize(from, size);
    if from <= to {
        if to <= case.len() {
            return &case[from..to];
        }
    }
    &case[..0]
}
