// Numbers of fixed width and byte strings stored from an offset on. Each function answers the offset past what it stored.
ghost use Rattle.std.specs.Prelude.{◌+◌, ◌≤◌, length};
ghost use Rattle.segment.specs.Written.{fixed};
ghost use Rattle.common.specs.Stores.{Stored};
ghost use Rattle.write_frame.specs.Steps.{four};

// A u32, little-endian.
pub fn put_u32(out: &mut [u8], at: usize, x: u32) -> usize
    requires { at + 4 ≤ length out.old }
    ensures { Stored (fixed 4 x) at out.old result out.new }
{
    out[at] = (x % 256) as u8;
    out[at + 1] = (x / 256 % 256) as u8;
    out[at + 2] = (x / 65536 % 256) as u8;
    out[at + 3] = (x / 16777216 % 256) as u8;
    at + 4
}

// A u64, little-endian.
pub fn put_u64(out: &mut [u8], at: usize, x: usize) -> usize
    requires { at + 8 ≤ length out.old }
    ensures { Stored (fixed 8 x) at out.old result out.new }
{
    let next = put_u32(out, at, (x % 4294967296) as u32);
    put_u32(out, next, (x / 4294967296) as u32)
}

// Four u32 one behind the other.
pub fn put_four_u32(out: &mut [u8], at: usize, w: u32, x: u32, y: u32, z: u32) -> usize
    requires { at + 16 ≤ length out.old }
    ensures { Stored (four 4 w x y z) at out.old result out.new }
{
    let second = put_u32(out, at, w);
    let third = put_u32(out, second, x);
    let fourth = put_u32(out, third, y);
    put_u32(out, fourth, z)
}

// Four u64 one behind the other. Not one generic function with `put_four_u32`: only the store in it differs, and to pass that is no plainer.
pub fn put_four_u64(out: &mut [u8], at: usize, w: usize, x: usize, y: usize, z: usize) -> usize
    requires { at + 32 ≤ length out.old }
    ensures { Stored (four 8 w x y z) at out.old result out.new }
{
    let second = put_u64(out, at, w);
    let third = put_u64(out, second, x);
    let fourth = put_u64(out, third, y);
    put_u64(out, fourth, z)
}

// A byte string. Byte by byte, as `copy_from_slice` would make the library for C ask for `memmove`.
pub fn put_bytes(out: &mut [u8], at: usize, bytes: &[u8]) -> usize
    requires { at + length bytes.now ≤ length out.old }
    ensures { Stored bytes.now at out.old result out.new }
{
    for i in 0..bytes.len() {
        out[at + i] = bytes[i];
    }
    at + bytes.len()
}
