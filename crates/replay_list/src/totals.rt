// What is counted: calls, kinds.
ghost use Rattle.std.specs.Prelude.{◌<◌};

// Where a call or a kind is counted: the last place counts all numbers from 15 on.
fn place_of(x: u32) -> usize
    ensures { result < 16 }
{
    if x < 15 { x as usize } else { 15 }
}

pub fn count(counts: &mut [u64; 16], x: u32) {
    let i = place_of(x);
    counts[i] = std::num::wrapping_add_u64(counts[i], 1);
}
