// The documents that every list holds, one leap after the other, and of these the ones that meet the rule.
ghost use Rattle.std.specs.Prelude.{◌≤◌, ◌<◌, ◌≡◌, set};
ghost use Rattle.ask_names.specs.Steps.{InSlots};
ghost use Rattle.ask_walk.specs.Steps.{cursors_in, DocumentsFound};

use crate::document::{NO_POSITIONS, document_meets};
use crate::leap::next_document;
use common::widths::wide;
use read_cursors::postings::Postings;
use rules::rule::Rule;

// Stores a number at an index of the buffer, if the buffer is that long: a walk over an empty buffer only counts.
pub fn put(buffer: &mut [u32], at: usize, number: u32)
    ensures { buffer.new ≡ set buffer.old at number }
{
    if at < buffer.len() {
        buffer[at] = number;
    }
}

// Returns how many documents are in all m lists and meet the rule; stores the first of their ids from the buffer's front, as many as fit.
// The cursor over list k is lists[k]; these are used up.
pub fn walk(
    bytes: &[u8],
    rule: Rule,
    n: usize,
    slot: &[usize; 128],
    m: usize,
    wanted: &[u32; 128],
    lists: &mut [Postings; 128],
    ids: &mut [u32],
) -> usize
    requires { InSlots n slot.now × (0 < m) × (m ≤ 128) }
    ensures { DocumentsFound bytes.now rule n slot.now m wanted.now (cursors_in lists.old) ids.old result ids.new }
{
    let mut last = [NO_POSITIONS; 128];
    let mut first = [NO_POSITIONS; 128];
    let mut seen = [0u32; 128];
    let mut found: usize = 0;
    let mut from: u64 = 0;
    while let Some(next) = next_document(bytes, m, lists, from) {
        if document_meets(
            bytes, rule, n, slot, m, wanted, lists, &mut last, &mut first, &mut seen,
        ) {
            put(ids, found, next.0);
            found += 1;
        }
        from = wide(next.0) + 1;
    }
    found
}
