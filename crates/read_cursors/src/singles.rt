// Numbers of one byte each, told by one word. The cursors try this first; whatever it is not sure of, they read number by number.
ghost use Rattle.std.specs.Prelude.{◌≡◌, true};
ghost use Rattle.read_cursors.specs.Singles.{Singles};

use segment::fixed::read_usize_at;

// Whether the next `count` numbers are sure to take a byte each: one to eight of them, eight bytes are there, and in the word that these
// make no byte of theirs has its high bit set.
pub fn all_single(list: &[u8], at: usize, count: usize) -> bool
    ensures { result ≡ true → Singles list.now at count }
{
    if count == 0 {
        return false;
    }
    if 8 < count {
        return false;
    }
    if list.len() <= at {
        return false;
    }
    if list.len() - at < 8 {
        return false;
    }
    let word = read_usize_at(list, at);
    word & (0x8080_8080_8080_8080 >> (64 - 8 * count)) == 0
}
