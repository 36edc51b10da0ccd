// The leap to the next document that every list holds, as in one document to the next start: the least document that no list has ruled out
// yet is brought to each list in turn; a list that is past it moves it on.
ghost use Rattle.std.specs.Prelude.{◌≤◌, ◌<◌, ◌^◌};
ghost use Rattle.ask_walk.specs.Steps.{cursors_in, Leapt};

use crate::tables::seek_list;
use common::widths::wide;
use read_cursors::postings::Postings;
use segment::ids::DocId;

// The least document not below `from` that all m lists hold, each list's cursor at its posting, if there is one.
// The contract says what the walk needs: of every document passed some list has no position.
// The cursor over list k is lists[k]: these move on, and the documents that were passed are lost to them.
pub fn next_document(
    bytes: &[u8],
    m: usize,
    lists: &mut [Postings; 128],
    from: u64,
) -> Option<DocId>
    requires { (0 < m) × (m ≤ 128) × (from ≤ 2 ^ 32) }
    ensures { Leapt bytes.now m from (cursors_in lists.old) (cursors_in lists.new) result }
{
    let mut next = from;
    let mut k: usize = 0;
    // No index loop: a list that is past the document sends k back to 0.
    loop {
        let here = seek_list(bytes, lists, k, next);
        if here.remaining == 0 {
            return None;
        }
        let reached = wide(here.doc.0);
        // the end is looked for here, not before each turn: else the compiler moves k without a branch, and a turn waits for the one before
        if reached == next {
            k += 1;
            if k == m {
                return Some(here.doc);
            }
        } else {
            next = reached;
            k = 0;
        }
    }
}
