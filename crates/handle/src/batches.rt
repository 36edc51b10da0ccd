// The lists of an open segment decoded up to 128 at a time, over one pass of the metadata. Where that way is not sure of a batch, its lists
// are decoded one by one, which says the refusal, or that all is well: a bad list costs the walks of its own batch alone.
ghost use Rattle.std.specs.Prelude.{◌≡◌, true, ◌+◌, ◌≤◌};
ghost use Rattle.read_open.specs.Opened.{OpenedAs};
ghost use Rattle.handle.specs.Steps.{BatchSize, BatchDecodes, BatchChecked};

use read_open::header::Layout;
use read_terms::find::{decode_postings, entry_list};
use read_terms::together::entries_decode;
use segment::refusal::Refusal;

// How many lists are taken side by side at most.
const BATCH: usize = 128;

// How many of the remaining lists the next batch has.
pub fn batch_size(remaining: usize) -> usize
    ensures { BatchSize remaining result }
{
    remaining.min(BATCH)
}

// Whether the lists of m entries from an index on surely decode.
fn batch_decodes(bytes: &[u8], at: Layout, from: usize, m: usize) -> bool
    requires { OpenedAs bytes.now at × (from + m ≤ at.terms) × (m ≤ 128) }
    ensures { result ≡ true → BatchDecodes bytes.now at from m }
{
    entries_decode(bytes, at, from, m)
}

// Decodes the lists of the entries from an index up to another one by one; the first refusal stands.
fn decode_batch(bytes: &[u8], at: Layout, from: usize, to: usize) -> Result<(), Refusal>
    requires { OpenedAs bytes.now at × (from ≤ to) × (to ≤ at.terms) }
    ensures { BatchChecked bytes.now at from to result }
{
    for i in from..to {
        decode_postings(bytes, at, entry_list(bytes, at, i))?;
    }
    Ok(())
}

// Decodes the lists of m entries from an index on: the quick way where all are in order; else one by one, for the first refusal.
pub fn check_batch(bytes: &[u8], at: Layout, from: usize, m: usize) -> Result<(), Refusal>
    requires { OpenedAs bytes.now at × (from + m ≤ at.terms) × (m ≤ 128) }
    ensures { BatchChecked bytes.now at from (from + m) result }
{
    if batch_decodes(bytes, at, from, m) {
        return Ok(());
    }
    decode_batch(bytes, at, from, from + m)
}
