// The listing written out.
ghost use Rattle.std.specs.Prelude.{Ok, ℕ, IfOk, OnErr};
ghost use Rattle.show_listing.specs.Promise.{ListedInto, ListedWhole};

use segment::refusal::Refusal;
use show_listing::list::listing;
use std::io;
use std::io::Write;

// Lists a segment as `listing` does, and writes the text out; where the lent slice is too short for the text, nothing. An error is the
// writer's, and leaves the text in the slice.
pub fn write_listing<W: Write>(
    to: &mut W,
    bytes: &[u8],
    out: &mut [u8],
) -> io::Result<Result<usize, Refusal>>
    ensures ok { IfOk result (λ r. ListedInto bytes.now out.old r out.new) }
    ensures err { OnErr result ((k : ℕ) × ListedInto bytes.now out.old (Ok k) out.new) }
{
    let r = listing(bytes, out);
    if let Ok(k) = r {
        to.write_all(&out[..k])?;
    }
    Ok(r)
}

// Lists a segment, writes the text out and returns its length. No listing is longer than the lent array, so this refuses nothing. An error
// is the writer's, and leaves the text in the array.
pub fn print_listing<W: Write>(
    to: &mut W,
    bytes: &[u8],
    text: &mut [u8; 687393],
) -> io::Result<usize>
    ensures ok { IfOk result (λ n. ListedWhole bytes.now text.old n text.new) }
    ensures err { OnErr result ((n : ℕ) × ListedWhole bytes.now text.old n text.new) }
{
    Ok(write_listing(to, bytes, text)?.unwrap_or(0))
}
