// Byte strings: whether a slice begins with one, and the order of two.
ghost use Rattle.std.specs.Prelude.{◌≡◌, length, take};
ghost use Rattle.segment.specs.Names.{same, precedes as precedes_name};
ghost use Rattle.segment.specs.Steps.{order};

use std::cmp::Ordering;

// Whether the slice begins with a fixed byte string.
pub fn starts_with(s: &[u8], mark: &[u8]) -> bool
    ensures { result ≡ same (take (length mark.now) s.now) mark.now }
{
    s.starts_with(mark)
}

// Which of two names comes first in byte order.
pub fn compare(a: &[u8], b: &[u8]) -> Ordering
    ensures { result ≡ order a.now b.now }
{
    a.cmp(b)
}

// Whether the first name comes before the second.
pub fn precedes(a: &[u8], b: &[u8]) -> bool
    ensures { result ≡ precedes_name a.now b.now }
{
    compare(a, b).is_lt()
}
