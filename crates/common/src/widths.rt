// Casts that lose nothing. A function keeps the need that the value fits out of every proof that reads it.
ghost use Rattle.std.specs.Prelude.{◌≡◌};

// A byte as a u32.
pub fn byte(x: u8) -> u32
    ensures { result ≡ x }
{
    x as u32
}

// A u32 in 64 bits, so that sums never wrap.
pub fn wide(x: u32) -> u64
    ensures { result ≡ x }
{
    x as u64
}

// A u32 as a length.
pub fn long(x: u32) -> usize
    ensures { result ≡ x }
{
    x as usize
}
