// The number of hits on the display.
ghost use Rattle.std.specs.Prelude.{◌≡◌};
ghost use Rattle.pad_read.specs.Counter.{pad_hits};

// How many hits the bars have together, as stored: nothing is counted and nothing tested, so any words have an answer. A slice without
// word 1 has 0.
pub fn pad_hits(pad: &[u32]) -> u32
    ensures { result ≡ pad_hits pad.now }
{
    pad.get(1).copied().unwrap_or(0)
}
