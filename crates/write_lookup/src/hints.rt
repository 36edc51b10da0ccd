// A hint: the index of an id among rising ids. `known_len` tests it and can do without, so the hint affects speed only: nothing is promised
// of it, and nothing has to be proved of how it is found.
ghost use Rattle.std.specs.Prelude.{◌≤◌, length};

use segment::ids::DocId;

// So many ids are compared without a branch, before the search gallops.
const NEXT: usize = 8;

// How many of the ids are lower. Every one is compared, so that the processor has no branch to predict.
fn lower_of(ids: &[u32], id: DocId) -> usize
    ensures { result ≤ length ids.now }
{
    let mut lower: usize = 0;
    for x in ids {
        if *x < id.0 {
            lower += 1;
        }
    }
    lower
}

// Binary search between two indices.
fn index_within(ids: &[u32], id: DocId, from: usize, to: usize) -> usize
    requires { to ≤ length ids.now }
{
    let mut low = from;
    let mut high = to;
    while low < high {
        let middle = low + (high - low) / 2;
        if ids[middle] < id.0 {
            low = middle + 1;
        } else {
            high = middle;
        }
    }
    low
}

// Galloping search: steps that double, then binary search inside the last.
fn index_behind(ids: &[u32], id: DocId, from: usize) -> usize {
    let mut low = from;
    let mut step = NEXT;
    while low < ids.len() {
        if ids.len() - low <= step {
            return index_within(ids, id, low, ids.len());
        }
        let last = low + step - 1;
        if id.0 <= ids[last] {
            return index_within(ids, id, low, last);
        }
        low += step;
        step *= 2;
    }
    low
}

// A hint for `known_len`: the index of the id, if it is at `from` or behind. A term's postings rise, so each document is near the one
// before.
pub fn index_from(ids: &[u32], id: DocId, from: usize) -> usize {
    if from < ids.len() && NEXT < ids.len() - from {
        if id.0 <= ids[from + NEXT - 1] {
            return from + lower_of(&ids[from..from + NEXT], id);
        }
        return index_behind(ids, id, from + NEXT);
    }
    index_behind(ids, id, from)
}
