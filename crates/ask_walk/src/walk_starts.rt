// The documents that every list holds, one leap after the other, and of these the ones that have the phrase, each with the number of its
// starts.
ghost use Rattle.std.specs.Prelude.{◌≤◌, ◌<◌};
ghost use Rattle.ask_names.specs.Steps.{InSlots};
ghost use Rattle.ask_walk.specs.Steps.{cursors_in, DocumentsCounted};

use crate::document::{NO_POSITIONS, document_starts};
use crate::leap::next_document;
use crate::walk::put;
use common::widths::wide;
use read_cursors::postings::Postings;

// Returns how many documents are in all m lists and have the phrase; stores the first of their ids, and beside each the number of starts at
// which the phrase fits, from the buffers' fronts, as many as fit in each. The cursor over list k is lists[k]; these are used up.
pub fn walk_starts(
    bytes: &[u8],
    n: usize,
    slot: &[usize; 128],
    m: usize,
    lists: &mut [Postings; 128],
    ids: &mut [u32],
    counts: &mut [u32],
) -> usize
    requires { InSlots n slot.now × (0 < n) × (0 < m) × (m ≤ 128) }
    ensures { DocumentsCounted bytes.now n slot.now m (cursors_in lists.old) ids.old counts.old result ids.new counts.new }
{
    let mut last = [NO_POSITIONS; 128];
    let mut found: usize = 0;
    let mut from: u64 = 0;
    while let Some(next) = next_document(bytes, m, lists, from) {
        let times = document_starts(bytes, n, slot, lists, &mut last);
        if 0 < times {
            put(ids, found, next.0);
            put(counts, found, times);
            found += 1;
        }
        from = wide(next.0) + 1;
    }
    found
}
