// Stored numbers: unsigned LEB128 (DWARF 5, section 7.6) of one to five bytes, for values of 32 bits.
ghost use Rattle.std.specs.Prelude.{◌≡◌, ◌+◌, ◌≤◌, length, drop, Some};
ghost use Rattle.common.specs.Stores.{Stored};
ghost use Rattle.leb128.specs.Leb128.{below, uleb128, limited, encoded};
ghost use Rattle.leb128.specs.Promise.{decoded, decoded_at};

// An offset in a slice of bytes, where the next number starts.
#[derive(Clone, Copy)]
pub struct Reader {
    pub at: usize,
}

// A number that was read, and the reader advanced past it.
#[derive(Clone, Copy)]
pub struct Number {
    pub value: u32,
    pub next: Reader,
}

// The number that was read, and the reader at the offset past it.
fn found(value: u32, at: usize) -> Option<Number>
    ensures { result ≡ Some (record { value = value; next = record { at = at } }) }
{
    Some(Number {
        value,
        next: Reader { at },
    })
}

// A number at an offset, whose first two bytes, b0 and b1, say that more follow: three to five bytes, below 2^32.
fn decode_long(s: &[u8], at: usize, b0: u32, b1: u32) -> Option<Number>
    requires { at + 2 ≤ length s.now }
    ensures { result ≡ decoded at (limited (below b0 (below b1 (uleb128 (drop (at + 2) s.now))))) }
{
    let at2 = at + 2;
    let b2 = u32::from(*s.get(at2)?);
    let at3 = at2 + 1;
    let x2 = b0 % 128 + b1 % 128 * 128 + b2 % 128 * 16384;
    if b2 < 128 {
        return found(x2, at3);
    }
    let b3 = u32::from(*s.get(at3)?);
    let at4 = at3 + 1;
    let x3 = x2 + b3 % 128 * 2097152;
    if b3 < 128 {
        return found(x3, at4);
    }
    let b4 = u32::from(*s.get(at4)?);
    if 16 <= b4 {
        return None;
    }
    found(x3 + b4 * 268435456, at4 + 1)
}

impl Reader {
    // The number at the reader's offset: one to five bytes, below 2^32; long forms of small numbers included.
    pub fn decode_u32(self, s: &[u8]) -> Option<Number>
        ensures { result ≡ decoded_at s.now self.at }
    {
        let at = self.at;
        let b0 = u32::from(*s.get(at)?);
        let at1 = at + 1;
        if b0 < 128 {
            return found(b0, at1);
        }
        let b1 = u32::from(*s.get(at1)?);
        if b1 < 128 {
            return found(b0 % 128 + b1 * 128, at1 + 1);
        }
        decode_long(s, at, b0, b1)
    }
}

// How many bytes the shortest form of x has.
#[tactic(auto, unfolding(crate::specs::Leb128::encoded, crate::specs::Leb128::chunks))]
pub fn encoded_len(x: u32) -> usize
    ensures { result ≡ length (encoded x) }
{
    if x < 128 {
        return 1;
    }
    if x < 16384 {
        return 2;
    }
    if x < 2097152 {
        return 3;
    }
    if x < 268435456 {
        return 4;
    }
    5
}

// Stores the shortest form of x in `out` from the offset `at` on, and answers the offset past it.
// The caller has measured: encoded_len says how much room that takes.
pub fn encode_u32(x: u32, out: &mut [u8], at: usize) -> usize
    requires { at + length (encoded x) ≤ length out.old }
    ensures { Stored (encoded x) at out.old result out.new }
{
    let mut rest = x;
    let mut i = at;
    // How often it turns is the value's to say, and no count or slice, so this is no `for`.
    while 128 <= rest {
        out[i] = (rest % 128 + 128) as u8;
        rest /= 128;
        i += 1;
    }
    out[i] = rest as u8;
    i + 1
}
