// The calls on terms that list positions, by a handle.
ghost use Rattle.std.specs.Prelude.{None, ◌≡◌, drop};
ghost use Rattle.read_cursors.specs.Held.{held_postings};
ghost use Rattle.read_checked.specs.Promise.{PostingsChecked, PositionsChecked};
ghost use Rattle.read_checked.specs.Steps.{counts_in};

use crate::named::named_list;
use common::widths::long;
use handle::handle::{Handle, usable};
use read_cursors::positions::Positions;
use read_cursors::postings::Postings;
use read_positions::postings::{fill_positions, fill_postings, positions, term_postings};
use segment::ids::DocId;
use segment::refusal::Refusal;
use segment::replies::Totals;

// How many positions the postings of a list have, by their counts. At most 2^32 - 1 postings of at most 2^32 - 1: the sum fits.
// A cursor holds no borrow and is advanced with the bytes, so it is no iterator: the loop goes by the cursor.
fn count_positions(bytes: &[u8], at: usize, df: u32) -> usize
    ensures { result ≡ counts_in (held_postings df None (drop at bytes.now)) }
{
    let mut c = Postings::start(bytes, at, df);
    let mut total: usize = 0;
    while 0 < c.remaining {
        total += long(c.count);
        c = c.advance(bytes);
    }
    total
}

// All postings of a term: how many postings and positions; ids, position counts and positions in three buffers.
pub fn term_postings_checked(
    bytes: &[u8],
    h: Handle,
    name: &[u8],
    ids: &mut [u32],
    counts: &mut [u32],
    positions: &mut [u32],
) -> Result<Totals, Refusal>
    ensures { PostingsChecked bytes.now h name.now ids.old counts.old positions.old result ids.new counts.new
        positions.new }
{
    if !usable(bytes, h) {
        return term_postings(bytes, name, ids, counts, positions);
    }
    let Some(list) = named_list(bytes, h, name)? else {
        return Ok(Totals {
            postings: 0,
            positions: 0,
        });
    };
    let n = long(list.df);
    if ids.len() < n {
        return Err(Refusal::NoRoom(1, n));
    }
    if counts.len() < n {
        return Err(Refusal::NoRoom(2, n));
    }
    let total = count_positions(bytes, list.start, list.df);
    if positions.len() < total {
        return Err(Refusal::NoRoom(3, total));
    }
    fill_postings(bytes, list.start, list.df, ids, counts, positions);
    Ok(Totals {
        postings: n,
        positions: total,
    })
}

// How many positions a term has in one document, and which, in rising order; none if the term or the document is unknown.
pub fn positions_checked(
    bytes: &[u8],
    h: Handle,
    name: &[u8],
    id: DocId,
    out: &mut [u32],
) -> Result<usize, Refusal>
    ensures { PositionsChecked bytes.now h name.now id.0 out.old result out.new }
{
    if !usable(bytes, h) {
        return positions(bytes, name, id, out);
    }
    let Some(list) = named_list(bytes, h, name)? else {
        return Ok(0);
    };
    let first = Postings::start(bytes, list.start, list.df);
    let here = first.seek(bytes, id.0 as u64);
    if here.remaining == 0 || here.doc.0 != id.0 {
        return Ok(0);
    }
    let n = long(here.count);
    if out.len() < n {
        return Err(Refusal::NoRoom(1, n));
    }
    fill_positions(bytes, Positions::start(bytes, here), out, 0);
    Ok(n)
}
