// A bar on paper.
ghost use Rattle.show_sheet.specs.Promise.{SheetAnswered};
ghost use Rattle.c_reply.specs.Replies.{Replied, counted_reply};

use c_reply::reply::{Reply, of_counted};
use segment::ids::DocId;
use show_sheet::sheet::bar_sheet;

// first: how many bytes the sheet has; they are at the front of the buffer.
pub fn pstp_bar_sheet(bytes: &[u8], id: u32, out: &mut [u8]) -> Reply
    ensures { Replied counted_reply (λ a. SheetAnswered bytes.now id out.old a out.new) result }
{
    of_counted(bar_sheet(bytes, DocId(id), out))
}
