// A list: its head, its cases one after the other, its end.
use crate::fields::number_at;
use common::widths::long;
use program_io::read_full;
use segment::names::starts_with;
use std::io;
use std::io::Read;

// Whether a list begins so: magic and version.
pub fn is_list(head: &[u8], magic: &[u8]) -> bool {
    starts_with(head, magic) && number_at(head, 8) == 1
}

fn read_into<R: Read>(from: &mut R, case: &mut [u8], head: usize) -> io::Result<usize> {
    if case.len() < 4 {
        return Ok(0);
    }
    if read_full(from, &mut case[0..4])? < 4 {
        return Ok(0);
    }
    let size = long(number_at(case, 0));
    if case.len() - 4 < size {
        return Ok(0);
    }
    let end = size + 4;
    if end < head {
        return Ok(0);
    }
    if read_full(from, &mut case[4..end])? < size {
        return Ok(0);
    }
    Ok(end)
}

// The next case, size and all, at the front of the slice: its length. 0 where the list ends, or has no case with so long a head there.
pub fn next_case<R: Read>(from: &mut R, case: &mut [u8; 4096], head: usize) -> io::Result<usize> {
    read_into(from, case, head)
}

// Whether so many bytes, the head's among them, and so many numbers make up a case.
pub fn fills(bytes: usize, numbers: usize, end: usize) -> bool {
    if 4096 < bytes {
        return false;
    }
    if 1024 < numbers {
        return false;
    }
    bytes + 4 * numbers == end
}

pub fn is_at_end<R: Read>(from: &mut R) -> io::Result<bool> {
    let mut more = [0u8; 1];
    Ok(read_full(from, &mut more)? == 0)
}
