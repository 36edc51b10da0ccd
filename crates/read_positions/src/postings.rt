// The calls on terms that list positions.
ghost use Rattle.std.specs.Prelude.{None, ◌+◌, ◌≤◌, length, drop};
ghost use Rattle.read_cursors.specs.Held.{held_postings};
ghost use Rattle.read_cursors.specs.Steps.{positions_from};
ghost use Rattle.common.specs.Stores.{Stored};
ghost use Rattle.read_positions.specs.Promise.{PostingsAnswered, PositionsAnswered};
ghost use Rattle.read_positions.specs.Steps.{FilledPostings, all_positions};

use common::widths::long;
use read_cursors::positions::Positions;
use read_cursors::postings::Postings;
use read_terms::terms::decode_term;
use segment::ids::DocId;
use segment::refusal::Refusal;
use segment::replies::Totals;

// A cursor holds no borrow and is advanced with the bytes, so it is no iterator: the loops below go by the cursor.

// Stores the positions from a cursor on, from index `at` of `out` on; returns the index after them.
pub fn fill_positions(bytes: &[u8], from: Positions, out: &mut [u32], at: usize) -> usize
    requires { at + length (positions_from bytes.now from) ≤ length out.old }
    ensures { Stored (positions_from bytes.now from) at out.old result out.new }
{
    let mut c = from;
    let mut i = at;
    while 0 < c.remaining {
        out[i] = c.pos.0;
        c = c.advance(bytes);
        i += 1;
    }
    i
}

// The postings of a list: ids and counts side by side, and all positions, at the fronts of three buffers.
pub fn fill_postings(
    bytes: &[u8],
    at: usize,
    df: u32,
    ids: &mut [u32],
    counts: &mut [u32],
    positions: &mut [u32],
)
    requires { (length (held_postings df None (drop at bytes.now)) ≤ length ids.old)
        × (length (held_postings df None (drop at bytes.now)) ≤ length counts.old)
        × (length (all_positions (held_postings df None (drop at bytes.now))) ≤ length positions.old) }
    ensures { FilledPostings (held_postings df None (drop at bytes.now)) ids.old counts.old positions.old ids.new
        counts.new positions.new }
{
    let mut c = Postings::start(bytes, at, df);
    let mut i: usize = 0;
    let mut next: usize = 0;
    while 0 < c.remaining {
        ids[i] = c.doc.0;
        counts[i] = c.count;
        next = fill_positions(bytes, Positions::start(bytes, c), positions, next);
        c = c.advance(bytes);
        i += 1;
    }
}

// All postings of a term: how many postings and positions; ids, position counts and positions in three buffers.
pub fn term_postings(
    bytes: &[u8],
    name: &[u8],
    ids: &mut [u32],
    counts: &mut [u32],
    positions: &mut [u32],
) -> Result<Totals, Refusal>
    ensures { PostingsAnswered bytes.now name.now ids.old counts.old positions.old result ids.new counts.new
        positions.new }
{
    let Some(list) = decode_term(bytes, name)? else {
        return Ok(Totals {
            postings: 0,
            positions: 0,
        });
    };
    let n = long(list.df);
    let total = list.positions;
    if ids.len() < n {
        return Err(Refusal::NoRoom(1, n));
    }
    if counts.len() < n {
        return Err(Refusal::NoRoom(2, n));
    }
    if positions.len() < total {
        return Err(Refusal::NoRoom(3, total));
    }
    fill_postings(bytes, list.start, list.df, ids, counts, positions);
    Ok(Totals {
        postings: n,
        positions: total,
    })
}

// How many positions a term has in one document, and which, in rising order; none if the term or the document is unknown. The whole list
// is decoded first.
pub fn positions(bytes: &[u8], name: &[u8], id: DocId, out: &mut [u32]) -> Result<usize, Refusal>
    ensures { PositionsAnswered bytes.now name.now id.0 out.old result out.new }
{
    let Some(list) = decode_term(bytes, name)? else {
        return Ok(0);
    };
    let first = Postings::start(bytes, list.start, list.df);
    let here = first.seek(bytes, id.0 as u64);
    if here.remaining == 0 {
        return Ok(0);
    }
    if here.doc.0 != id.0 {
        return Ok(0);
    }
    let n = long(here.count);
    if out.len() < n {
        return Err(Refusal::NoRoom(1, n));
    }
    fill_positions(bytes, Positions::start(bytes, here), out, 0);
    Ok(n)
}
