// A bar on paper, written out.
ghost use Rattle.std.specs.Prelude.{Ok, ℕ, IfOk, OnErr};
ghost use Rattle.show_sheet.specs.Promise.{SheetAnswered};

use segment::ids::DocId;
use segment::refusal::Refusal;
use show_sheet::sheet::bar_sheet;
use std::io;
use std::io::Write;

// Draws a bar as `bar_sheet` does, and writes its sheet out; after a refusal, nothing. An error is the writer's, and leaves the sheet in
// the slice.
pub fn write_sheet<W: Write>(
    to: &mut W,
    bytes: &[u8],
    id: DocId,
    out: &mut [u8],
) -> io::Result<Result<usize, Refusal>>
    ensures ok { IfOk result (λ r. SheetAnswered bytes.now id.0 out.old r out.new) }
    ensures err { OnErr result ((k : ℕ) × SheetAnswered bytes.now id.0 out.old (Ok k) out.new) }
{
    let r = bar_sheet(bytes, id, out);
    if let Ok(k) = r {
        to.write_all(&out[..k])?;
    }
    Ok(r)
}
