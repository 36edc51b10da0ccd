// What stands before the events of a file: the header chunk, and the heading of the track chunk.
ghost use Rattle.std.specs.Prelude.{◌≡◌, ◌+◌, ◌≤◌, length};
ghost use Rattle.midi_read.specs.Files.{big_field, division_fits, header, heading};
ghost use Rattle.midi_read.specs.Promise.{ChunksRead};

use segment::names::starts_with;
use segment::refusal::{LIMIT, Refusal};

// The number of two bytes at an offset, the high one first. The caller has tested that they lie in the slice.
fn read_u16_at(s: &[u8], at: usize) -> u32
    requires { at + 2 ≤ length s.now }
    ensures { result ≡ big_field 2 at s.now }
{
    u32::from(u16::from_be_bytes([s[at], s[at + 1]]))
}

// The number of four bytes at an offset.
fn read_u32_at(s: &[u8], at: usize) -> u32
    requires { at + 4 ≤ length s.now }
    ensures { result ≡ big_field 4 at s.now }
{
    u32::from_be_bytes([s[at], s[at + 1], s[at + 2], s[at + 3]])
}

// Whether a division is in its range, and a multiple of the steps to a quarter.
fn is_division(division: u32, quarter: u32) -> bool
    requires { 1 ≤ quarter }
    ensures { result ≡ division_fits quarter division }
{
    0 < division && division <= 32767 && division % quarter == 0
}

// The header chunk: MThd, length 6, format 0, one track, then the division.
fn read_header(s: &[u8], quarter: u32) -> Result<u64, Refusal>
    requires { 1 ≤ quarter }
    ensures { result ≡ header quarter s.now }
{
    if s.len() < 14 {
        return Err(Refusal::MidiFile(0));
    }
    if !starts_with(s, b"MThd\x00\x00\x00\x06\x00\x00\x00\x01") {
        return Err(Refusal::MidiFile(0));
    }
    let division = read_u16_at(s, 12);
    if !is_division(division, quarter) {
        return Err(Refusal::MidiFile(0));
    }
    Ok(u64::from(division / quarter))
}

// The track chunk's heading: MTrk, and a length that is the rest of the file.
fn check_heading(s: &[u8]) -> Result<(), Refusal>
    ensures { result ≡ heading s.now }
{
    if s.len() < 22 {
        return Err(Refusal::MidiFile(14));
    }
    if !starts_with(&s[14..], b"MTrk") {
        return Err(Refusal::MidiFile(14));
    }
    if 22 + read_u32_at(s, 18) as usize != s.len() {
        return Err(Refusal::MidiFile(14));
    }
    Ok(())
}

// A file's two chunks, as far as the events: 12, then the header, then the heading.
pub fn read_chunks(s: &[u8], quarter: u32) -> Result<u64, Refusal>
    requires { 1 ≤ quarter }
    ensures { ChunksRead quarter s.now result }
{
    if LIMIT < s.len() {
        return Err(Refusal::TooLarge);
    }
    let ticks = read_header(s, quarter)?;
    check_heading(s)?;
    Ok(ticks)
}
