// The checksum: CRC-32 as IEEE 802.3 defines it in clause 3.2.9, Frame Check Sequence (FCS) field, from a to e:
//   a, the first 32 bits are complemented      `crc32`: the remainder begins as 32 ones, which adds a one to each of them
//   b, the bits are the coefficients of M(x)   `update`: each byte's lowest bit first
//   c, M(x) * x^32 is divided by G(x)          `update`: bits are added at the top of the remainder, not below it: that is * x^32
//                                              `step`: divides on by one coefficient, which leaves the remainder R(x)
//   d, R(x) is a sequence of 32 bits           `remainder`: x^31 is the lowest bit, x^0 the highest
//   e, it is complemented                      `crc32`: exclusive-or with 32 ones
ghost use Rattle.std.specs.Prelude.{◌≡◌};
ghost use Rattle.crc32.specs.Crc32.{crc32_of};
ghost use Rattle.crc32.specs.Parts.{times_x, taken_in, complemented, BothTaken};

// G(x), the generating polynomial, without x^32; its bits as in d. By digits, each from its highest bit:
//   E: 1, x, x^2   D: x^4, x^5, x^7   B: x^8, x^10, x^11   8: x^12   8: x^16   3: x^22, x^23   2: x^26   0: none
const G: u32 = 0xEDB8_8320;

// The remainder's 32 ones before the first byte, as in a: where a checksum that is carried on begins.
pub const START: u32 = 0xFFFF_FFFF;

// One step of c: `>> 1` is R(x) * x, as x^31 is the lowest bit. Where a 1 goes out to x^32, G(x) is subtracted: its x^32 takes that 1
// away, and its other coefficients are an exclusive-or.
fn step(remainder: u32) -> u32
    ensures { result ≡ times_x remainder }
{
    let shifted = remainder >> 1;
    if (remainder & 1) == 1 {
        return shifted ^ G;
    }
    shifted
}

// The remainder after one byte more: the byte's bits are added to the eight highest coefficients, its lowest to x^31, and eight steps
// divide on.
fn update(prior: u32, next: u8) -> u32
    ensures { result ≡ taken_in prior next }
{
    let mut remainder = prior ^ u32::from(next);
    for _ in 0..8u32 {
        remainder = step(remainder);
    }
    remainder
}

// The CRC-32 of the bytes.
pub fn crc32(s: &[u8]) -> u32
    ensures { result ≡ crc32_of s.now }
{
    let mut remainder: u32 = 0xFFFF_FFFF;
    for &next in s {
        remainder = update(remainder, next);
    }
    remainder ^ 0xFFFF_FFFF
}

// Of bytes that are a part of a longer run: their own CRC-32, and the run's remainder past them.
#[derive(Clone, Copy)]
pub struct Both {
    pub own: u32,
    pub run: u32,
}

// Both at once: the processor takes the two divisions side by side, in little more time than one.
pub fn crc32_and_on(s: &[u8], before: u32) -> Both
    ensures { BothTaken s.now before result }
{
    let mut own = START;
    let mut run = before;
    for &next in s {
        own = update(own, next);
        run = update(run, next);
    }
    Both {
        own: finish(own),
        run,
    }
}

// e, of a remainder that was carried on to the run's end: its CRC-32.
pub fn finish(run: u32) -> u32
    ensures { result ≡ complemented run }
{
    run ^ START
}
