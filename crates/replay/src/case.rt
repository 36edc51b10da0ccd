// A case of the list: its fields, and where the parts of its data lie.
ghost use Rattle.std.specs.Prelude.{◌≤◌};

use c_reply::reply::Reply;
use replay_list::fields::{bytes_at, number_at, size_of, sizes};
use replay_list::list::{fills, next_case};
use replay_list::replies::reply_at;
use std::io;
use std::io::Read;

// How long a case's head is.
const HEAD: usize = 100;

// The call's number, from 1; then whether the question is ordered.
pub fn call_of(case: &[u8]) -> u32 {
    number_at(case, 4) % 256
}

pub fn is_ordered(case: &[u8]) -> bool {
    number_at(case, 4) / 256 % 256 == 1
}

// The document id or the window.
pub fn argument_of(case: &[u8]) -> u32 {
    number_at(case, 8)
}

// The reply that the call must have; third and fourth are 0.
pub fn reply_of(case: &[u8]) -> Reply {
    reply_at(case, 12, 0, 0)
}

// The parts of the data, each by the place of its length in the head. The first four are bytes, the others numbers. OUT, FIRST, SECOND and
// THIRD are the lent buffers as they must be after the call.
pub const SEGMENT: usize = 44;

pub const TEXT: usize = 48;

pub const SECOND_NAME: usize = 52;

pub const OUT: usize = 56;

pub const ENDS: usize = 60;

pub const IDS: usize = 64;

pub const LENGTHS: usize = 68;

pub const POSTING_COUNTS: usize = 72;

pub const POSTING_IDS: usize = 76;

pub const POSITION_COUNTS: usize = 80;

pub const POSITIONS: usize = 84;

pub const FIRST: usize = 88;

pub const SECOND: usize = 92;

pub const THIRD: usize = 96;

// Where the numbers begin.
pub fn bytes_end(case: &[u8]) -> usize {
    std::num::wrapping_add_usize(HEAD, sizes(case, SEGMENT, ENDS))
}

// A part of the bytes; nothing where it does not lie in the case.
pub fn bytes_of(case: &[u8], part: usize) -> &[u8]
    requires { part ≤ 96 }
{
    let from = std::num::wrapping_add_usize(HEAD, sizes(case, SEGMENT, part));
    bytes_at(case, from, size_of(case, part))
}

// A part of the numbers; nothing where it does not lie in them.
pub fn list_of<'a, 'b>(case: &'b [u8], numbers: &'a [u32], part: usize) -> &'a [u32]
    requires { part ≤ 96 }
{
    let from = sizes(case, ENDS, part);
    let to = std::num::wrapping_add_usize(from, size_of(case, part));
    if from <= to {
        if to <= numbers.len() {
            return &numbers[from..to];
        }
    }
    &numbers[..0]
}

// Whether the call is one of the eleven, the parts fill the case, and the lent buffers are no longer than the format allows.
fn is_whole(case: &[u8], end: usize) -> bool {
    let call = call_of(case);
    1 <= call
        && call <= 11
        && fills(bytes_end(case), sizes(case, ENDS, HEAD), end)
        && size_of(case, OUT) <= 1536
        && size_of(case, FIRST) <= 64
        && size_of(case, SECOND) <= 64
        && size_of(case, THIRD) <= 64
}

// The next case at the front of the slice; false where the list ends, or has no whole case there.
pub fn read_case<R: Read>(from: &mut R, case: &mut [u8; 4096]) -> io::Result<bool> {
    let end = next_case(from, case, HEAD)?;
    Ok(HEAD <= end && is_whole(case, end))
}
