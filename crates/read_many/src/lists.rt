// Lists checked side by side: each is taken through the documents of one block, then of the next, until the metadata ends. List k lies in
// `bytes` up to end[k]; cursors[k] is its cursor. Which block is read affects speed only: a posting is passed where the table knows its
// document, and the table knows only documents of the metadata.
ghost use Rattle.std.specs.Prelude.{None, ◌≡◌, true, ◌≤◌};
ghost use Rattle.read_cursors.specs.Held.{held_documents};
ghost use Rattle.read_many.specs.Promise.{AllDecode};
ghost use Rattle.read_many.specs.Steps.{Walked, Walkable, ListsWalked, Entered, Ended, BlocksWalkable, BlocksWalked};

use crate::lengths::{fill_block, length_of, limit_of};
use crate::postings::{Cursor, number, past_posting};
use common::widths::wide;
use read_cursors::documents::Documents;

// One list taken through the postings whose documents are below the limit, as far as it is surely in order.
fn walk_list(list: &[u8], from: Cursor, table: &[u64; 1024], limit: u64) -> Cursor
    ensures { Walked list.now table.now from result }
{
    let mut c = from;
    while 0 < c.remaining {
        if limit <= wide(c.doc) {
            return c;
        }
        let Some(len) = length_of(table, c.doc) else {
            return c;
        };
        let Some(next) = past_posting(list, c, len) else {
            return c;
        };
        c = next;
    }
    c
}

// Every list taken through a block; the least document that one waits for. It is 2^32, which no document is, where no other block is worth
// reading: a list is stuck below the limit, or all ended. It is a number and no Option, so that the least of none is a bound as well.
fn walk_lists(
    bytes: &[u8],
    m: usize,
    end: &[usize; 128],
    cursors: &mut [Cursor; 128],
    table: &[u64; 1024],
    limit: u64,
) -> u64
    requires { Walkable bytes.now m end.now }
    ensures { ListsWalked bytes.now end.now table.now cursors.old cursors.new }
{
    let mut least: u64 = 4294967296;
    for k in 0..m {
        let next = walk_list(&bytes[..end[k]], cursors[k], table, limit);
        cursors[k] = next;
        if 0 < next.remaining {
            if wide(next.doc) < limit {
                return 4294967296;
            }
            least = least.min(wide(next.doc));
        }
    }
    least
}

// The same, but where every list waits for a document behind the block, none is visited: blocks may be as many as the documents.
fn walk_waiting(
    bytes: &[u8],
    m: usize,
    end: &[usize; 128],
    cursors: &mut [Cursor; 128],
    table: &[u64; 1024],
    limit: u64,
    waits: u64,
) -> u64
    requires { Walkable bytes.now m end.now }
    ensures { ListsWalked bytes.now end.now table.now cursors.old cursors.new }
{
    if limit <= waits {
        return waits;
    }
    walk_lists(bytes, m, end, cursors, table, limit)
}

// The cursor of every list past its first gap; false where a list has none, or does not lie in the bytes.
fn enter_lists(
    bytes: &[u8],
    m: usize,
    start: &[usize; 128],
    end: &[usize; 128],
    df: &[u32; 128],
    cursors: &mut [Cursor; 128],
) -> bool
    requires { m ≤ 128 }
    ensures { result ≡ true → Entered bytes.now m start.now end.now df.now cursors.new }
{
    for k in 0..m {
        if bytes.len() < end[k] || df[k] == 0 {
            return false;
        }
        let Some(gap) = number(&bytes[..end[k]], start[k]) else {
            return false;
        };
        cursors[k] = Cursor {
            at: gap.next.at,
            doc: gap.value,
            remaining: df[k],
        };
    }
    true
}

// Whether no posting of any list remains, and no byte behind the last.
fn all_ended(m: usize, end: &[usize; 128], cursors: &[Cursor; 128]) -> bool
    requires { m ≤ 128 }
    ensures { result ≡ true → Ended m end.now cursors.now }
{
    for k in 0..m {
        if 0 < cursors[k].remaining {
            return false;
        }
        if cursors[k].at < end[k] {
            return false;
        }
    }
    true
}

// Every list taken through one block of documents after the other; whether all came to their ends.
fn walk_blocks(
    bytes: &[u8],
    m: usize,
    end: &[usize; 128],
    cursors: &mut [Cursor; 128],
    meta: &[u8],
    documents: u32,
    table: &mut [u64; 1024],
) -> bool
    requires { BlocksWalkable (held_documents documents None meta.now) bytes.now m end.now table.old }
    ensures { result ≡ true → BlocksWalked (held_documents documents None meta.now) bytes.now m end.now cursors.old }
{
    let mut here = Documents::start(meta, documents);
    let mut waits: u64 = 0;
    // The cursor moves by blocks.
    while 0 < here.remaining {
        here = fill_block(meta, here, table);
        let limit = limit_of(here);
        waits = walk_waiting(bytes, m, end, cursors, table, limit, waits);
        if waits == 4294967296 {
            return all_ended(m, end, cursors);
        }
    }
    all_ended(m, end, cursors)
}

// Whether the first m lists are surely in order: list k lies in `bytes` from start[k] up to end[k] and has df[k] postings. Nothing is said
// where the answer is false.
pub fn lists_sure(
    bytes: &[u8],
    m: usize,
    start: &[usize; 128],
    end: &[usize; 128],
    df: &[u32; 128],
    meta: &[u8],
    documents: u32,
) -> bool
    ensures { result ≡ true → AllDecode (held_documents documents None meta.now) bytes.now m start.now end.now df.now }
{
    if 128 < m {
        return false;
    }
    let nowhere = Cursor {
        at: 0,
        doc: 0,
        remaining: 0,
    };
    let mut cursors = [nowhere; 128];
    if !enter_lists(bytes, m, start, end, df, &mut cursors) {
        return false;
    }
    let mut table = [0u64; 1024];
    walk_blocks(bytes, m, end, &mut cursors, meta, documents, &mut table)
}
