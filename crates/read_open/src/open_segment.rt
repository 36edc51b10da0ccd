// A segment opened: the header, the checksums, the metadata, the directory. Posting lists are decoded when they are asked for.
ghost use Rattle.std.specs.Prelude.{◌≡◌, ◌+◌, ◌≤◌, length};
ghost use Rattle.segment.specs.Opening.{checksums, contents, section_checksum, open_segment};
ghost use Rattle.read_open.specs.Steps.{cut, SectionsFollow};
ghost use Rattle.segment.specs.Records.{between};
ghost use Rattle.segment.specs.Steps.{checked};
ghost use Rattle.read_open.specs.Opened.{Opens};
ghost use Rattle.calls.specs.Replies.{opened};

use crate::directory::decode_term_directory;
use crate::header::{Layout, read_header};
use crc32::checksum::crc32;
use read_lists::metadata::decode_document_lengths;
use segment::fixed::{HEADER_SIZE, read_u32_at};
use segment::refusal::{Refusal, Section};
use segment::replies::Counts;

// The checksum of the bytes from `from` to `to`, against the one in the header at offset `at`.
fn check_crc(
    bytes: &[u8],
    from: usize,
    to: usize,
    at: usize,
    section: Section,
) -> Result<(), Refusal>
    requires { (from ≤ to) × (to ≤ length bytes.now) × (at + 4 ≤ length bytes.now) }
    ensures { result ≡ checked (section_checksum section (between from to bytes.now) at bytes.now) }
{
    if crc32(&bytes[from..to]) != read_u32_at(bytes, at) {
        return Err(Refusal::ChecksumMismatch(section));
    }
    Ok(())
}

// The four checksums.
fn check_sections(bytes: &[u8], at: Layout) -> Result<(), Refusal>
    requires { SectionsFollow bytes.now at }
    ensures { result ≡ checked (checksums bytes.now (cut bytes.now at)) }
{
    check_crc(bytes, HEADER_SIZE, at.names, 56, Section::TermDirectory)?;
    check_crc(bytes, at.names, at.metadata, 60, Section::TermBytes)?;
    check_crc(bytes, at.metadata, at.lists, 64, Section::DocumentMetadata)?;
    check_crc(bytes, at.lists, bytes.len(), 68, Section::Postings)
}

// Metadata, then directory.
fn check_contents(bytes: &[u8], at: Layout) -> Result<(), Refusal>
    requires { SectionsFollow bytes.now at }
    ensures { result ≡ checked (contents (cut bytes.now at)) }
{
    decode_document_lengths(&bytes[at.metadata..at.lists], at.documents)?;
    decode_term_directory(
        &bytes[HEADER_SIZE..at.names],
        &bytes[at.names..at.metadata],
        &bytes[at.lists..],
        at.terms,
    )
}

// Opens a segment for the calls of this library: all checks of document 01, in its order.
pub fn open_layout(bytes: &[u8]) -> Result<Layout, Refusal>
    ensures { Opens bytes.now result }
{
    let at = read_header(bytes)?;
    check_sections(bytes, at)?;
    check_contents(bytes, at)?;
    Ok(at)
}

// Opens a segment: the two counts, or the first refusal in document 01's order.
pub fn open(bytes: &[u8]) -> Result<Counts, Refusal>
    ensures { result ≡ opened (open_segment bytes.now) }
{
    let at = open_layout(bytes)?;
    Ok(Counts {
        documents: at.documents,
        terms: at.terms,
    })
}
