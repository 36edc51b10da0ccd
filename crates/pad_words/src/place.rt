// Where a bar begins in the pad, or where it would.
ghost use Rattle.std.specs.Prelude.{◌≡◌};
ghost use Rattle.pad_words.specs.Words.{held};
ghost use Rattle.pad_words.specs.Steps.{place_from, Inside};

use common::widths::long;

// Where the bar with an id begins, or, as an error, where it would. Bars stand by rising id, so the first that is not lower decides.
pub fn place_of(pad: &[u32], id: u32) -> Result<usize, usize>
    requires { Inside pad.now }
    ensures { result ≡ place_from 2 (held pad.now) id }
{
    let mut at = 2;
    for _ in 0..pad[0] {
        let here = pad[at];
        if here == id {
            return Ok(at);
        }
        if here > id {
            return Err(at);
        }
        at += 3 + 2 * long(pad[at + 2]);
    }
    Err(at)
}
