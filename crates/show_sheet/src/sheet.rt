// The sheet: every list decoded and the text measured, then drawn.
ghost use Rattle.std.specs.Prelude.{◌≡◌, ◌+◌, ◌≤◌, ◌<◌, length};
ghost use Rattle.common.specs.Stores.{Stored};
ghost use Rattle.calls.specs.Sheet.{heading};
ghost use Rattle.calls.specs.Replies.{count_of};
ghost use Rattle.read_lists.specs.Steps.{Marks};
ghost use Rattle.read_open.specs.Steps.{cut};
ghost use Rattle.show_sheet.specs.Promise.{SheetAnswered};
ghost use Rattle.show_sheet.specs.Steps.{documents_in, entry_in, Drawable, line_in, lines_in, text_in, RoomFor, SheetDrawn};

use crate::bar::{Bar, find_bar};
use common::widths::long;
use read_cursors::documents::Documents;
use read_cursors::postings::Postings;
use read_lists::marks::{mark_documents, mark_ids};
use read_open::header::Layout;
use read_open::open_segment::open_layout;
use read_terms::find::{decode_postings_for, entry_list};
use segment::fixed::HEADER_SIZE;
use segment::ids::DocId;
use segment::refusal::Refusal;
use show_columns::put::{name_len, put_number, put_spaces};
use show_listing::list::{entry_name, put_end};
use show_steps::line::{BEHIND_NAME, NAME_WIDTH, put_sound};

// How many bytes the first line has.
const HEADING_SIZE: usize = 81;

// How many bytes an entry's line has, its whole list decoded: none where the bar has no hit of it. The marks are those of the metadata.
fn line_len(
    bytes: &[u8],
    at: Layout,
    bar: Bar,
    i: usize,
    marks: [Documents; 128],
    ids: &[u32; 128],
) -> Result<usize, Refusal>
    requires { Drawable bytes.now at bar × (i < at.terms)
        × Marks (cut bytes.now at).metadata (documents_in bytes.now at) marks }
    ensures { result ≡ count_of (line_in (documents_in bytes.now at) bar (entry_in bytes.now at i)) }
{
    let list = entry_list(bytes, at, i);
    if decode_postings_for(bytes, at, list, bar.id, marks, ids)? == 0 {
        return Ok(0);
    }
    let name = entry_name(&bytes[HEADER_SIZE..at.names], i);
    let names = &bytes[at.names..at.metadata];
    Ok(name_len(&names[name.start..name.end], NAME_WIDTH) + BEHIND_NAME)
}

// How many bytes the sounds' lines have, every list of the directory decoded in its order; or the first refusal.
fn lines_len(bytes: &[u8], at: Layout, bar: Bar) -> Result<usize, Refusal>
    requires { Drawable bytes.now at bar }
    ensures { result ≡ count_of (lines_in bytes.now at bar at.terms 0) }
{
    let terms = long(at.terms);
    let marks = mark_documents(&bytes[at.metadata..at.lists], at.documents);
    let ids = mark_ids(marks);
    let mut size: usize = 0;
    for i in 0..terms {
        size += line_len(bytes, at, bar, i, marks, &ids)?;
    }
    Ok(size)
}

// The first line.
fn put_heading(bar: Bar, out: &mut [u8]) -> usize
    requires { 81 ≤ length out.old }
    ensures { Stored (heading bar.id.0 bar.len) 0 out.old result out.new }
{
    let next = put_number(out, 0, bar.id.0 as u64);
    let next = put_number(out, next, bar.len as u64);
    let end = put_spaces(out, next, 60);
    put_end(out, end)
}

// An entry's line, if the bar has a hit of it.
fn put_line(bytes: &[u8], at: Layout, bar: Bar, i: usize, out: &mut [u8], next: usize) -> usize
    requires { Drawable bytes.now at bar × (i < at.terms)
        × RoomFor (line_in (documents_in bytes.now at) bar (entry_in bytes.now at i)) out.old next }
    ensures { Stored (text_in (line_in (documents_in bytes.now at) bar (entry_in bytes.now at i))) next out.old result
        out.new }
{
    let list = entry_list(bytes, at, i);
    let here = Postings::start(bytes, list.start, list.df).seek(bytes, bar.id.0 as u64);
    if here.remaining == 0 || here.doc.0 != bar.id.0 {
        return next;
    }
    let name = entry_name(&bytes[HEADER_SIZE..at.names], i);
    let names = &bytes[at.names..at.metadata];
    put_sound(
        bytes,
        here,
        bar.len,
        &names[name.start..name.end],
        out,
        next,
    )
}

// The sounds' lines.
fn put_lines(bytes: &[u8], at: Layout, bar: Bar, out: &mut [u8], from: usize) -> usize
    requires { Drawable bytes.now at bar × RoomFor (lines_in bytes.now at bar at.terms 0) out.old from }
    ensures { Stored (text_in (lines_in bytes.now at bar at.terms 0)) from out.old result out.new }
{
    let terms = long(at.terms);
    let mut next = from;
    for i in 0..terms {
        next = put_line(bytes, at, bar, i, out, next);
    }
    next
}

// The sheet of a bar that is on paper. It is measured before anything is stored: 13 comes after every list was decoded, has the whole
// length, and leaves the buffer as it was.
fn draw(bytes: &[u8], at: Layout, bar: Bar, out: &mut [u8]) -> Result<usize, Refusal>
    requires { Drawable bytes.now at bar }
    ensures { SheetDrawn bytes.now at bar out.old result out.new }
{
    let needed = HEADING_SIZE + lines_len(bytes, at, bar)?;
    if out.len() < needed {
        return Err(Refusal::NoRoom(1, needed));
    }
    let next = put_heading(bar, out);
    Ok(put_lines(bytes, at, bar, out, next))
}

// A bar on paper: how many bytes its sheet has, at the front of the buffer.
pub fn bar_sheet(bytes: &[u8], id: DocId, out: &mut [u8]) -> Result<usize, Refusal>
    ensures { SheetAnswered bytes.now id.0 out.old result out.new }
{
    let at = open_layout(bytes)?;
    let bar = find_bar(bytes, at, id)?;
    draw(bytes, at, bar, out)
}
