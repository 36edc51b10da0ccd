// The text of a listing.
ghost use Rattle.std.specs.Prelude.{None, ◌≡◌, [], ◌∷◌, ◌++◌, ◌+◌, ◌*◌, ◌^◌, ◌≤◌, ◌<◌, length};
ghost use Rattle.common.specs.Stores.{Stored};
ghost use Rattle.segment.specs.Records.{entry_size};
ghost use Rattle.read_cursors.specs.Held.{held_documents};
ghost use Rattle.read_open.specs.Steps.{entry_at, EntryInside};
ghost use Rattle.calls.specs.Listing.{column, document_lines, entry_line};
ghost use Rattle.show_listing.specs.Steps.{name_range, entry_lines_at, LineRoom, EntriesInside, EntriesRoom};
ghost use Rattle.show_listing.specs.Steps.{RefusalListed, SegmentListed};
ghost use Rattle.read_open.specs.Opened.{OpenedAs};
ghost use Rattle.show_listing.specs.Promise.{ListedInto};

use common::widths::long;
use read_cursors::documents::Documents;
use read_open::directory::NameRange;
use read_open::header::Layout;
use read_open::open_segment::open_layout;
use segment::fixed::{ENTRY_SIZE, HEADER_SIZE, read_u32_at};
use segment::refusal::{Numbers, Refusal};
use show_columns::put::{name_len, put_name, put_number};

// The end of a line.
pub fn put_end(out: &mut [u8], at: usize) -> usize
    requires { at + 1 ≤ length out.old }
    ensures { Stored (10 ∷ []) at out.old result out.new }
{
    out[at] = 10;
    at + 1
}

// A line of two numbers.
fn put_pair(out: &mut [u8], at: usize, a: u32, b: u32) -> usize
    requires { at + 21 ≤ length out.old }
    ensures { Stored (column a ++ column b ++ 10 ∷ []) at out.old result out.new }
{
    let second = put_number(out, at, a as u64);
    let end = put_number(out, second, b as u64);
    put_end(out, end)
}

// A line for each document.
fn put_documents(meta: &[u8], count: u32, out: &mut [u8], at: usize) -> usize
    requires { at + 21 * length (held_documents count None meta.now) ≤ length out.old }
    ensures { Stored (document_lines (held_documents count None meta.now)) at out.old result out.new }
{
    let mut c = Documents::start(meta, count);
    let mut next = at;
    // A cursor holds no borrow and is advanced with the bytes, so it is no iterator.
    while 0 < c.remaining {
        next = put_pair(out, next, c.id.0, c.len);
        c = c.advance(meta);
    }
    next
}

// How many characters of a name are shown.
const NAME_WIDTH: usize = 16;

// Where a term's name lies in the section of term bytes.
pub fn entry_name(dir: &[u8], i: usize) -> NameRange
    requires { i * entry_size + entry_size ≤ length dir.now }
    ensures { result ≡ name_range dir.now i }
{
    let place = i * ENTRY_SIZE;
    let start = long(read_u32_at(dir, place));
    let end = start + long(read_u32_at(dir, place + 4));
    NameRange { start, end }
}

// How many bytes a term's line has.
fn entry_len(dir: &[u8], names: &[u8], i: usize) -> usize
    requires { EntryInside dir.now names.now i }
    ensures { result ≡ length (entry_line (entry_at dir.now names.now [] i)) }
{
    let name = entry_name(dir, i);
    name_len(&names[name.start..name.end], NAME_WIDTH) + 11
}

// How many bytes the terms' lines have.
fn entries_len(dir: &[u8], names: &[u8], terms: usize) -> usize
    requires { EntriesInside dir.now names.now terms × (terms < 2 ^ 32) }
    ensures { result ≡ length (entry_lines_at dir.now names.now terms 0) }
{
    let mut size: usize = 0;
    for i in 0..terms {
        size += entry_len(dir, names, i);
    }
    size
}

// A term's line: its name and its df.
fn put_entry(dir: &[u8], names: &[u8], i: usize, out: &mut [u8], at: usize) -> usize
    requires { EntryInside dir.now names.now i × LineRoom dir.now names.now i out.old at }
    ensures { Stored (entry_line (entry_at dir.now names.now [] i)) at out.old result out.new }
{
    let name = entry_name(dir, i);
    let past = put_name(out, at, &names[name.start..name.end], NAME_WIDTH);
    let df = read_u32_at(dir, i * ENTRY_SIZE + 24);
    let last = put_number(out, past, df as u64);
    put_end(out, last)
}

// A line for each term.
fn put_entries(dir: &[u8], names: &[u8], terms: usize, out: &mut [u8], at: usize) -> usize
    requires { EntriesRoom dir.now names.now terms out.old at }
    ensures { Stored (entry_lines_at dir.now names.now terms 0) at out.old result out.new }
{
    let mut next = at;
    for i in 0..terms {
        next = put_entry(dir, names, i, out, next);
    }
    next
}

// A refusal's line, by its three numbers.
pub fn list_refusal(x: Numbers, out: &mut [u8]) -> Result<usize, Refusal>
    requires { x.index < 10000000000 }
    ensures { RefusalListed x out.old result out.new }
{
    if out.len() < 31 {
        return Err(Refusal::NoRoom(1, 31));
    }
    let next = put_number(out, 0, x.kind as u64);
    let next = put_number(out, next, x.which as u64);
    let end = put_number(out, next, x.index);
    Ok(put_end(out, end))
}

// An open segment's lines.
fn list_segment(bytes: &[u8], at: Layout, out: &mut [u8]) -> Result<usize, Refusal>
    requires { OpenedAs bytes.now at }
    ensures { SegmentListed bytes.now at out.old result out.new }
{
    let documents = long(at.documents);
    let terms = long(at.terms);
    let dir = &bytes[HEADER_SIZE..at.names];
    let names = &bytes[at.names..at.metadata];
    // Measured before anything is stored: 13 has the whole text's length, and leaves the slice as it was.
    let lines = entries_len(dir, names, terms);
    let needed = 21 + documents * 21 + lines;
    if out.len() < needed {
        return Err(Refusal::NoRoom(1, needed));
    }
    let next = put_pair(out, 0, at.documents, at.terms);
    let next = put_documents(&bytes[at.metadata..at.lists], at.documents, out, next);
    Ok(put_entries(dir, names, terms, out, next))
}

// The listing of a segment of at most 65,536 bytes: the text at the slice's front and its length, or 13.
pub fn listing(bytes: &[u8], out: &mut [u8]) -> Result<usize, Refusal>
    ensures { ListedInto bytes.now out.old result out.new }
{
    if 65536 < bytes.len() {
        return list_refusal(Refusal::TooLarge.numbers(), out);
    }
    match open_layout(bytes) {
        Ok(at) => list_segment(bytes, at, out),
        Err(x) => list_refusal(x.numbers(), out),
    }
}
