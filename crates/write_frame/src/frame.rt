// Directory entries and the header: lengths and checksums of what the slice already holds.
ghost use Rattle.write_frame.specs.Steps.{EntryRoom, EntryStored, HeaderRoom, HeaderStored};

use crate::numbers::{put_bytes, put_four_u32, put_four_u64, put_u32, put_u64};
use crc32::checksum::{crc32, crc32_and_on};
use segment::fixed::HEADER_SIZE;

// The offsets where the sections start, and where the segment ends. The directory starts at 72.
#[derive(Clone, Copy)]
pub struct Offsets {
    pub names: usize,
    pub metadata: usize,
    pub lists: usize,
    pub end: usize,
}

// The offset past an entry, and the remainder of the lists' checksum past its list.
#[derive(Clone, Copy)]
pub struct Past {
    pub entry: usize,
    pub run: u32,
}

// A directory entry for a list that the slice already holds, from `list` to `end`. `run` is the remainder of the lists before it.
pub fn put_entry(
    out: &mut [u8],
    at: usize,
    name: usize,
    name_len: usize,
    lists: usize,
    list: usize,
    end: usize,
    df: u32,
    run: u32,
) -> Past
    requires { EntryRoom out.old at name name_len lists list end }
    ensures { EntryStored out.old at name name_len lists list end df run result out.new }
{
    let both = crc32_and_on(&out[list..end], run);
    let next = put_u32(out, at, name as u32);
    let next = put_u32(out, next, name_len as u32);
    let next = put_u64(out, next, list - lists);
    let next = put_u64(out, next, end - list);
    let next = put_u32(out, next, df);
    let entry = put_u32(out, next, both.own);
    Past {
        entry,
        run: both.run,
    }
}

// The header, over sections that the slice already holds. The lists' checksum is given: it was taken as they were stored.
pub fn put_header(out: &mut [u8], documents: u32, terms: u32, lists_crc: u32, at: Offsets)
    requires { HeaderRoom out.old lists_crc at }
    ensures { HeaderStored documents terms at out.old out.new }
{
    let Offsets {
        names,
        metadata,
        lists,
        end,
    } = at;
    let directory_crc = crc32(&out[HEADER_SIZE..names]);
    let names_crc = crc32(&out[names..metadata]);
    let metadata_crc = crc32(&out[metadata..lists]);
    let counts = put_bytes(out, 0, b"PSTP0001");
    let lengths = put_four_u32(out, counts, 2, 0, documents, terms);
    let checksums = put_four_u64(
        out,
        lengths,
        names - HEADER_SIZE,
        metadata - names,
        lists - metadata,
        end - lists,
    );
    put_four_u32(
        out,
        checksums,
        directory_crc,
        names_crc,
        metadata_crc,
        lists_crc,
    );
}
