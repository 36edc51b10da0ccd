// Numbers of fixed width, little-endian. The caller has tested that they lie in the slice.
ghost use Rattle.std.specs.Prelude.{◌≡◌, ◌+◌, ◌≤◌, length};
ghost use Rattle.segment.specs.Records.{field};

// The header's bytes; the directory starts behind them.
pub const HEADER_SIZE: usize = 72;

// The bytes of a directory entry.
pub const ENTRY_SIZE: usize = 32;

// The u32 at an offset.
pub fn read_u32_at(s: &[u8], at: usize) -> u32
    requires { at + 4 ≤ length s.now }
    ensures { result ≡ field 4 at s.now }
{
    u32::from_le_bytes(s[at..at + 4].try_into().unwrap())
}

// The u64 at an offset.
pub fn read_usize_at(s: &[u8], at: usize) -> usize
    requires { at + 8 ≤ length s.now }
    ensures { result ≡ field 8 at s.now }
{
    usize::from_le_bytes(s[at..at + 8].try_into().unwrap())
}
