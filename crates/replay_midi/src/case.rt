// A case of the list: its fields, and where the parts of its data lie.
use c_reply::reply::Reply;
use replay_list::fields::{bytes_at, long_number_at, size_of, sizes};
use replay_list::list::{fills, next_case};
use replay_list::replies::reply_at;
use std::io;
use std::io::Read;

// How long a case's head is.
pub const HEAD: usize = 88;

// The parts of the data, each by the place of its length in the head. FILE and TEXT are bytes, the others numbers. All but FILE are the
// lent buffers as they must be after the call.
pub const FILE: usize = 52;

pub const IDS: usize = 56;

pub const LENGTHS: usize = 60;

pub const TEXT: usize = 64;

pub const ENDS: usize = 68;

pub const POSTING_COUNTS: usize = 72;

pub const POSTING_IDS: usize = 76;

pub const POSITION_COUNTS: usize = 80;

pub const POSITIONS: usize = 84;

// The reply that the call must have.
pub fn reply_of(case: &[u8]) -> Reply {
    reply_at(case, 4, long_number_at(case, 36), long_number_at(case, 44))
}

// The MIDI file, the first part.
pub fn file_of(case: &[u8]) -> &[u8] {
    bytes_at(case, HEAD, size_of(case, FILE))
}

// Where the first buffer stands.
pub fn file_end(case: &[u8]) -> usize {
    std::num::wrapping_add_usize(HEAD, size_of(case, FILE))
}

// Whether the parts fill the case, and the lent buffers are no longer than the format allows.
fn is_whole(case: &[u8], end: usize) -> bool {
    let bytes = std::num::wrapping_add_usize(file_end(case), size_of(case, TEXT));
    let before_text = sizes(case, IDS, TEXT);
    let numbers = std::num::wrapping_add_usize(before_text, sizes(case, ENDS, HEAD));
    fills(bytes, numbers, end)
        && size_of(case, IDS) <= 64
        && size_of(case, LENGTHS) <= 64
        && size_of(case, TEXT) <= 256
        && size_of(case, ENDS) <= 64
        && size_of(case, POSTING_COUNTS) <= 64
        && size_of(case, POSTING_IDS) <= 64
        && size_of(case, POSITION_COUNTS) <= 64
        && size_of(case, POSITIONS) <= 64
}

// The next case at the front of the slice; false where the list ends, or has no whole case there.
pub fn read_case<R: Read>(from: &mut R, case: &mut [u8; 4096]) -> io::Result<bool> {
    let end = next_case(from, case, HEAD)?;
    Ok(HEAD <= end && is_whole(case, end))
}
