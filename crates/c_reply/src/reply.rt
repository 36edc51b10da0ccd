// One reply for all calls: kind 0 is acceptance, with the answer's numbers; else the three numbers of a refusal.
ghost use Rattle.std.specs.Prelude.{◌≡◌};
ghost use Rattle.c_reply.specs.Replies.{accepted, accepted_four, refused_with, opened_reply, length_reply, frequency_reply};
ghost use Rattle.c_reply.specs.Replies.{counted_reply, listed_reply, imported_reply, bar_read_reply, hits_reply};

use segment::refusal::{Numbers, Refusal};
use segment::replies::{BarRead, Counts, ListTotals, Totals};

// kind 0: accepted, and first to fourth have the answer's numbers, 0 where there are fewer. Else a refusal, and all four are 0.
#[repr(C)]
#[derive(Clone, Copy, PartialEq, Eq)]
pub struct Reply {
    pub kind: u32,
    pub which: u32,
    pub index: u64,
    pub first: u64,
    pub second: u64,
    pub third: u64,
    pub fourth: u64,
}

// Acceptance, with the answer's numbers, two at most.
fn accept(first: u64, second: u64) -> Reply
    ensures { result ≡ accepted first second }
{
    accept_four(first, second, 0, 0)
}

// Acceptance, with four numbers.
fn accept_four(first: u64, second: u64, third: u64, fourth: u64) -> Reply
    ensures { result ≡ accepted_four first second third fourth }
{
    Reply {
        kind: 0,
        which: 0,
        index: 0,
        first,
        second,
        third,
        fourth,
    }
}

// A refusal's three numbers, whichever they are.
pub fn of_refused(x: Numbers) -> Reply
    ensures { result ≡ refused_with x }
{
    let Numbers { kind, which, index } = x;
    Reply {
        kind,
        which,
        index,
        first: 0,
        second: 0,
        third: 0,
        fourth: 0,
    }
}

// documents, terms
pub fn of_opened(a: Result<Counts, Refusal>) -> Reply
    ensures { result ≡ opened_reply a }
{
    match a {
        Ok(c) => accept(c.documents as u64, c.terms as u64),
        Err(x) => of_refused(x.numbers()),
    }
}

// 1 and the length, or 0 and 0 where the document is unknown
pub fn of_length(a: Result<Option<u32>, Refusal>) -> Reply
    ensures { result ≡ length_reply a }
{
    match a {
        Ok(Some(n)) => accept(1, n as u64),
        Ok(None) => accept(0, 0),
        Err(x) => of_refused(x.numbers()),
    }
}

// how many: elements that were stored, or bytes that were written
pub fn of_counted(a: Result<usize, Refusal>) -> Reply
    ensures { result ≡ counted_reply a }
{
    match a {
        Ok(n) => accept(n as u64, 0),
        Err(x) => of_refused(x.numbers()),
    }
}

// df
pub fn of_doc_freq(a: Result<u32, Refusal>) -> Reply
    ensures { result ≡ frequency_reply a }
{
    of_counted(a.map(|df| df as usize))
}

// postings, positions
pub fn of_listed(a: Result<Totals, Refusal>) -> Reply
    ensures { result ≡ listed_reply a }
{
    match a {
        Ok(t) => accept(t.postings as u64, t.positions as u64),
        Err(x) => of_refused(x.numbers()),
    }
}

// documents, terms, postings, positions
pub fn of_imported(a: Result<ListTotals, Refusal>) -> Reply
    ensures { result ≡ imported_reply a }
{
    match a {
        Ok(t) => accept_four(
            t.documents as u64,
            t.terms as u64,
            t.postings as u64,
            t.positions as u64,
        ),
        Err(x) => of_refused(x.numbers()),
    }
}

// hits, length
pub fn of_bar_read(a: Result<BarRead, Refusal>) -> Reply
    ensures { result ≡ bar_read_reply a }
{
    match a {
        Ok(bar) => accept(bar.hits as u64, bar.len as u64),
        Err(x) => of_refused(x.numbers()),
    }
}

// the stored number of hits
pub fn of_hits(hits: u32) -> Reply
    ensures { result ≡ hits_reply hits }
{
    accept(hits as u64, 0)
}
