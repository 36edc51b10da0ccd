// The header: magic, version, flags, counts, and where the four sections lie.
ghost use Rattle.std.specs.Prelude.{◌≡◌, true, ◌↔◌, ◌≤◌, length};
ghost use Rattle.segment.specs.Records.{header_size};
ghost use Rattle.segment.specs.Opening.{sections, ranges};
ghost use Rattle.read_open.specs.Steps.{end_within, range_end, Reads};
ghost use Rattle.read_open.specs.Opened.{Fits};

use common::widths::long;
use segment::fixed::{ENTRY_SIZE, HEADER_SIZE, read_u32_at, read_usize_at};
use segment::names::starts_with;
use segment::refusal::{Reason, Refusal, Section};

// Where the parts of a segment lie. The directory starts at 72; each section ends where the next starts, the lists with the segment.
#[derive(Clone, Copy)]
pub struct Layout {
    pub documents: u32,
    pub terms: u32,
    pub names: usize,
    pub metadata: usize,
    pub lists: usize,
}

// The offset after `n` bytes from offset `at`: `overflow` where it does not fit 64 bits, `short` where it is past `whole`.
pub fn checked_end<E: Copy>(
    at: usize,
    n: usize,
    whole: usize,
    overflow: E,
    short: E,
) -> Result<usize, E>
    ensures { result ≡ end_within at n whole overflow short }
{
    if usize::MAX - at < n {
        return Err(overflow);
    }
    if whole < at + n {
        return Err(short);
    }
    Ok(at + n)
}

// Why a range has no end: no offset is so large, or it is past the whole.
#[derive(Clone, Copy)]
enum NoEnd {
    Overflow,
    Short,
}

// The offset after `n` bytes from offset `at`: it fits 64 bits and is not past `whole`.
pub fn checked_range(at: usize, n: usize, whole: usize, section: Section) -> Result<usize, Refusal>
    ensures { result ≡ range_end section at n whole }
{
    // A refusal is larger than an offset: it is made only where the range has no end.
    match checked_end(at, n, whole, NoEnd::Overflow, NoEnd::Short) {
        Ok(end) => Ok(end),
        Err(NoEnd::Overflow) => Err(Refusal::InvalidLayout(Reason::SectionRangeOverflow)),
        Err(NoEnd::Short) => Err(Refusal::Truncated(section)),
    }
}

// The four ranges, the first bad one first; then trailing bytes.
fn read_ranges(bytes: &[u8]) -> Result<Layout, Refusal>
    requires { header_size ≤ length bytes.now }
    ensures { Reads bytes.now (ranges bytes.now) result }
{
    let whole = bytes.len();
    let names = checked_range(
        HEADER_SIZE,
        read_usize_at(bytes, 24),
        whole,
        Section::TermDirectory,
    )?;
    let metadata = checked_range(names, read_usize_at(bytes, 32), whole, Section::TermBytes)?;
    let lists = checked_range(
        metadata,
        read_usize_at(bytes, 40),
        whole,
        Section::DocumentMetadata,
    )?;
    let end = checked_range(lists, read_usize_at(bytes, 48), whole, Section::Postings)?;
    if end != whole {
        return Err(Refusal::InvalidLayout(Reason::TrailingBytes));
    }
    Ok(Layout {
        documents: read_u32_at(bytes, 16),
        terms: read_u32_at(bytes, 20),
        names,
        metadata,
        lists,
    })
}

// The header's checks: length 72, magic, version, flags, the four ranges, trailing bytes.
pub fn read_header(bytes: &[u8]) -> Result<Layout, Refusal>
    ensures { Reads bytes.now (sections bytes.now) result }
{
    if bytes.len() < HEADER_SIZE {
        return Err(Refusal::Truncated(Section::Header));
    }
    if !starts_with(bytes, b"PSTP0001") {
        return Err(Refusal::InvalidMagic);
    }
    let version = read_u32_at(bytes, 8);
    if version != 2 {
        return Err(Refusal::UnsupportedVersion(version));
    }
    let flags = read_u32_at(bytes, 12);
    if flags != 0 {
        return Err(Refusal::UnsupportedFlags(flags));
    }
    read_ranges(bytes)
}

// Whether a layout that a caller hands in fits some bytes: enough for every lookup to stay inside them.
pub fn fits(bytes: &[u8], at: Layout) -> bool
    ensures { (result ≡ true) ↔ Fits bytes.now at }
{
    if at.names < HEADER_SIZE {
        return false;
    }
    if at.metadata < at.names {
        return false;
    }
    if at.lists < at.metadata {
        return false;
    }
    if bytes.len() < at.lists {
        return false;
    }
    if at.names - HEADER_SIZE < long(at.terms) * ENTRY_SIZE {
        return false;
    }
    true
}
