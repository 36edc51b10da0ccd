// The calls on terms, and on their documents.
ghost use Rattle.std.specs.Prelude.{None, ◌≡◌, map, ◌≤◌, length, drop};
ghost use Rattle.read_cursors.specs.Held.{held_postings};
ghost use Rattle.segment.specs.Steps.{checked};
ghost use Rattle.calls.specs.Lookups.{well_named};
ghost use Rattle.calls.specs.Reads.{df as df_of};
ghost use Rattle.calls.specs.Replies.{fronted, df_answer};
ghost use Rattle.read_terms.specs.Promise.{DocsAnswered};
ghost use Rattle.read_terms.specs.Steps.{Decodes};

use crate::find::{decode_postings, find_term};
use common::widths::long;
use read_cursors::postings::Postings;
use read_open::open_segment::open_layout;
use segment::refusal::{LIMIT, Refusal};
use utf8::characters::is_utf8;

// A question's name: not too large, and UTF-8.
pub fn check_name(name: &[u8]) -> Result<(), Refusal>
    ensures { result ≡ checked (well_named name.now) }
{
    if LIMIT < name.len() {
        return Err(Refusal::TooLarge);
    }
    if !is_utf8(name) {
        return Err(Refusal::InvalidUtf8);
    }
    Ok(())
}

// How many documents have a term, as the directory stores it; 0 for an unknown term. No list is decoded.
pub fn df(bytes: &[u8], name: &[u8]) -> Result<u32, Refusal>
    ensures { result ≡ df_answer (df_of bytes.now name.now) }
{
    check_name(name)?;
    let at = open_layout(bytes)?;
    match find_term(bytes, at, name) {
        Some(list) => Ok(list.df),
        None => Ok(0),
    }
}

// A term's list, decoded: its start, how many postings and positions it has. It was checked from its own bytes; cursors read it from
// its start in the whole segment, so that one loop can hold cursors of many lists.
#[derive(Clone, Copy)]
pub struct DecodedList {
    pub start: usize,
    pub df: u32,
    pub positions: usize,
}

// The name checked, the segment opened, the term's list decoded whole; none for an unknown term.
pub fn decode_term(bytes: &[u8], name: &[u8]) -> Result<Option<DecodedList>, Refusal>
    ensures { Decodes bytes.now name.now result }
{
    check_name(name)?;
    let at = open_layout(bytes)?;
    let Some(list) = find_term(bytes, at, name) else {
        return Ok(None);
    };
    let positions = decode_postings(bytes, at, list)?;
    Ok(Some(DecodedList {
        start: list.start,
        df: list.df,
        positions,
    }))
}

// The documents of a list at the front of a buffer.
pub fn fill_docs(bytes: &[u8], at: usize, df: u32, ids: &mut [u32])
    requires { length (held_postings df None (drop at bytes.now)) ≤ length ids.old }
    ensures { ids.new ≡ fronted (map (λ s. s.doc) (held_postings df None (drop at bytes.now))) ids.old }
{
    let mut c = Postings::start(bytes, at, df);
    let mut i: usize = 0;
    // The cursor says how many turns there are, so i is counted beside it.
    while 0 < c.remaining {
        ids[i] = c.doc.0;
        c = c.advance(bytes);
        i += 1;
    }
}

// How many documents have a term, and their ids in rising order; none for an unknown term.
pub fn docs_with_term(bytes: &[u8], name: &[u8], ids: &mut [u32]) -> Result<usize, Refusal>
    ensures { DocsAnswered bytes.now name.now ids.old result ids.new }
{
    let Some(list) = decode_term(bytes, name)? else {
        return Ok(0);
    };
    let n = long(list.df);
    if ids.len() < n {
        return Err(Refusal::NoRoom(1, n));
    }
    fill_docs(bytes, list.start, list.df, ids);
    Ok(n)
}
