// Many lists decoded together: their checksums, then all of them side by side over one pass of the metadata. Nothing is said where the
// answer is false: decode_postings, list by list, says the refusal.
ghost use Rattle.std.specs.Prelude.{None, ◌≡◌, true, ◌+◌, ◌≤◌, length};
ghost use Rattle.read_open.specs.Steps.{SectionsFollow, cut};
ghost use Rattle.read_cursors.specs.Held.{held_documents};
ghost use Rattle.read_open.specs.Opened.{OpenedAs};
ghost use Rattle.read_terms.specs.Together.{SumMatches, SumsMatch, ListsDecode, Spread, EntriesSpread, EntriesDecode};

use crate::find::{TermList, entry_list};
use crc32::checksum::crc32;
use read_many::lists::lists_sure;
use read_open::header::Layout;

// Whether a list lies in the bytes and has the checksum that the directory stores.
fn sum_matches(bytes: &[u8], list: TermList) -> bool
    ensures { result ≡ true → SumMatches bytes.now list }
{
    if list.end < list.start || bytes.len() < list.end {
        return false;
    }
    crc32(&bytes[list.start..list.end]) == list.checksum
}

// Whether each of the lists lies in the bytes and has the checksum that the directory stores.
fn sums_match(bytes: &[u8], lists: &[TermList]) -> bool
    ensures { result ≡ true → SumsMatch bytes.now lists.now }
{
    for list in lists {
        if !sum_matches(bytes, *list) {
            return false;
        }
    }
    true
}

// Where the lists lie and how many postings they have, each in a table of its own, as the check side by side takes them.
fn spread(lists: &[TermList], start: &mut [usize; 128], end: &mut [usize; 128], df: &mut [u32; 128])
    requires { length lists.now ≤ 128 }
    ensures { Spread lists.now start.new end.new df.new }
{
    for k in 0..lists.len() {
        start[k] = lists[k].start;
        end[k] = lists[k].end;
        df[k] = lists[k].df;
    }
}

// Whether the lists surely decode, at most 128 of them.
pub fn lists_decode(bytes: &[u8], at: Layout, lists: &[TermList]) -> bool
    requires { SectionsFollow bytes.now at }
    ensures { result ≡ true → ListsDecode (held_documents at.documents None (cut bytes.now at).metadata) bytes.now lists.now }
{
    if 128 < lists.len() {
        return false;
    }
    if !sums_match(bytes, lists) {
        return false;
    }
    let mut start = [0usize; 128];
    let mut end = [0usize; 128];
    let mut df = [0u32; 128];
    spread(lists, &mut start, &mut end, &mut df);
    lists_sure(
        bytes,
        lists.len(),
        &start,
        &end,
        &df,
        &bytes[at.metadata..at.lists],
        at.documents,
    )
}

// The lists of m entries from an index on, each number in a table of its own; false where a checksum is not the stored one.
fn spread_entries(
    bytes: &[u8],
    at: Layout,
    from: usize,
    m: usize,
    start: &mut [usize; 128],
    end: &mut [usize; 128],
    df: &mut [u32; 128],
) -> bool
    requires { OpenedAs bytes.now at × (from + m ≤ at.terms) × (m ≤ 128) }
    ensures { result ≡ true → EntriesSpread bytes.now at from m start.new end.new df.new }
{
    for k in 0..m {
        let list = entry_list(bytes, at, from + k);
        if !sum_matches(bytes, list) {
            return false;
        }
        start[k] = list.start;
        end[k] = list.end;
        df[k] = list.df;
    }
    true
}

// Whether the lists of m entries from an index on surely decode, at most 128 of them. They go straight into the tables: a table of whole
// lists beside these would pass the 16 KiB of stack that include/pstp.h promises of a check.
pub fn entries_decode(bytes: &[u8], at: Layout, from: usize, m: usize) -> bool
    requires { OpenedAs bytes.now at × (from + m ≤ at.terms) }
    ensures { result ≡ true → EntriesDecode bytes.now at from m }
{
    if 128 < m {
        return false;
    }
    let mut start = [0usize; 128];
    let mut end = [0usize; 128];
    let mut df = [0u32; 128];
    if !spread_entries(bytes, at, from, m, &mut start, &mut end, &mut df) {
        return false;
    }
    lists_sure(
        bytes,
        m,
        &start,
        &end,
        &df,
        &bytes[at.metadata..at.lists],
        at.documents,
    )
}
