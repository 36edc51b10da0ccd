// The bar that is asked for.
ghost use Rattle.std.specs.Prelude.{◌≡◌};
ghost use Rattle.read_open.specs.Steps.{SectionsFollow};
ghost use Rattle.show_sheet.specs.Steps.{documents_in, paper_length, bar_found};

use read_cursors::documents::Documents;
use read_open::header::Layout;
use segment::ids::DocId;
use segment::refusal::Refusal;

// How many steps a line of the sheet has.
pub const STEPS: u32 = 64;

#[derive(Clone, Copy)]
pub struct Bar {
    pub id: DocId,
    pub len: u32,
}

// The bar with an id, if the segment has it and it is short enough for the paper.
pub fn find_bar(bytes: &[u8], at: Layout, id: DocId) -> Result<Bar, Refusal>
    requires { SectionsFollow bytes.now at }
    ensures { result ≡ bar_found id.0 (paper_length (documents_in bytes.now at) id.0) }
{
    let meta = &bytes[at.metadata..at.lists];
    let here = Documents::start(meta, at.documents).seek(meta, id);
    if here.remaining == 0 || here.id.0 != id.0 {
        return Err(Refusal::UnknownBar);
    }
    if STEPS < here.len {
        return Err(Refusal::BarTooLong);
    }
    Ok(Bar { id, len: here.len })
}
