// Write, then show: the writer is called, and then the sheet on exactly the bytes that it wrote.
ghost use Rattle.calls.specs.Given.{given_lists};
ghost use Rattle.claim_shown.specs.Promise.{WrittenThenShown};

use claim_joint::ask::Asked;
use segment::ids::DocId;
use segment::refusal::Refusal;
use show_sheet::sheet::bar_sheet;
use write_segment::write::write_positional_segment;

// Writes, then shows a bar on paper: bar_sheet is called on exactly the bytes written. The writer's refusal, or the length written and
// what the sheet's call answered.
pub fn write_then_show(
    ids: &[u32],
    lengths: &[u32],
    text: &[u8],
    ends: &[u32],
    posting_counts: &[u32],
    posting_ids: &[u32],
    position_counts: &[u32],
    positions: &[u32],
    out: &mut [u8],
    id: DocId,
    sheet: &mut [u8],
) -> Result<Asked, Refusal>
    ensures { WrittenThenShown (given_lists ids lengths text ends posting_counts posting_ids position_counts positions)
        out.old id.0 sheet.old result out.new sheet.new }
{
    let written = write_positional_segment(
        ids,
        lengths,
        text,
        ends,
        posting_counts,
        posting_ids,
        position_counts,
        positions,
        out,
    )?;
    let answer = bar_sheet(&out[..written], id, sheet);
    Ok(Asked { written, answer })
}
