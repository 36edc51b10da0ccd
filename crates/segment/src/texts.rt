// Several names in one text, by their ends.
ghost use Rattle.std.specs.Prelude.{◌≡◌};
ghost use Rattle.segment.specs.Texts.{ends_fit};

use common::widths::long;

// Whether the ends never fall and come to the text's length n.
pub fn ends_fit(ends: &[u32], n: usize) -> bool
    ensures { result ≡ ends_fit 0 ends.now n }
{
    let mut from = 0;
    for &end in ends {
        if end < from {
            return false;
        }
        from = end;
    }
    long(from) == n
}
