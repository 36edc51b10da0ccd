// The term directory: entries of 32 bytes, checked in document 01's order, and a term found by its name.
ghost use Rattle.std.specs.Prelude.{◌≡◌, false, ◌↔◌, ◌+◌, ◌*◌, ◌≤◌, ◌<◌, length};
ghost use Rattle.segment.specs.Records.{entry_size};
ghost use Rattle.segment.specs.Directory.{directory, read_list_range};
ghost use Rattle.segment.specs.Steps.{order, checked};
ghost use Rattle.read_open.specs.Steps.{LiesBefore, follows_name, WalkedEntry, name_at, EntryInside, LocatedAny};

use crate::header::checked_range;
use common::widths::long;
use segment::fixed::{ENTRY_SIZE, read_u32_at, read_usize_at};
use segment::names::{compare, precedes};
use segment::refusal::{Reason, Refusal, Section};
use std::cmp::Ordering;
use utf8::characters::is_utf8;

// Where a name lies in the section of term bytes.
#[derive(Clone, Copy)]
pub struct NameRange {
    pub start: usize,
    pub end: usize,
}

// Whether a name follows the one before it in the section; the first follows nothing.
fn follows(names: &[u8], previous: Option<NameRange>, name: &[u8]) -> bool
    requires { LiesBefore previous names.now }
    ensures { result ≡ follows_name names.now previous name.now }
{
    match previous {
        Some(before) => precedes(&names[before.start..before.end], name),
        None => true,
    }
}

// The list's range lies in its section, and the entry has postings.
fn check_list(entry: &[u8], lists: &[u8]) -> Result<(), Refusal>
    requires { entry_size ≤ length entry.now }
    ensures { result ≡ checked (read_list_range entry.now lists.now) }
{
    let from = read_usize_at(entry, 8);
    let size = read_usize_at(entry, 16);
    checked_range(from, size, lists.len(), Section::Postings)?;
    if read_u32_at(entry, 24) == 0 {
        return Err(Refusal::InvalidLayout(Reason::EmptyTermPostingList));
    }
    Ok(())
}

// One entry: term range, UTF-8, empty, order, postings range, df 0. Answers where its name lies.
fn check_entry(
    entry: &[u8],
    names: &[u8],
    lists: &[u8],
    previous: Option<NameRange>,
) -> Result<NameRange, Refusal>
    requires { (entry_size ≤ length entry.now) × LiesBefore previous names.now }
    ensures { WalkedEntry previous entry.now names.now lists.now result }
{
    let start = long(read_u32_at(entry, 0));
    let size = long(read_u32_at(entry, 4));
    let end = checked_range(start, size, names.len(), Section::TermBytes)?;
    let name = &names[start..end];
    if !is_utf8(name) {
        return Err(Refusal::InvalidUtf8);
    }
    if start == end {
        return Err(Refusal::InvalidLayout(Reason::EmptyTerm));
    }
    if !follows(names, previous, name) {
        return Err(Refusal::InvalidLayout(Reason::NonIncreasingTerm));
    }
    check_list(entry, lists)?;
    Ok(NameRange { start, end })
}

// The whole section checked: its length, then each entry.
pub fn decode_term_directory(
    dir: &[u8],
    names: &[u8],
    lists: &[u8],
    count: u32,
) -> Result<(), Refusal>
    ensures { result ≡ checked (directory count dir.now names.now lists.now) }
{
    let terms = long(count);
    if dir.len() != terms * ENTRY_SIZE {
        return Err(Refusal::InvalidLayout(Reason::DirectoryLengthMismatch));
    }
    let mut previous = None;
    for i in 0..terms {
        let name = check_entry(&dir[i * ENTRY_SIZE..], names, lists, previous)?;
        previous = Some(name);
    }
    Ok(())
}

// Whether the name of entry `i` does not lie in the term bytes.
fn entry_outside(dir: &[u8], names: &[u8], i: usize) -> bool
    requires { i * entry_size + entry_size ≤ length dir.now }
    ensures { (result ≡ false) ↔ EntryInside dir.now names.now i }
{
    let at = i * ENTRY_SIZE;
    let start = long(read_u32_at(dir, at));
    let end = start + long(read_u32_at(dir, at + 4));
    if names.len() < end {
        return true;
    }
    false
}

// Compares the name of entry `i` with a name.
fn compare_entry(dir: &[u8], names: &[u8], i: usize, name: &[u8]) -> Ordering
    requires { EntryInside dir.now names.now i }
    ensures { result ≡ order (name_at dir.now names.now i) name.now }
{
    let at = i * ENTRY_SIZE;
    let start = long(read_u32_at(dir, at));
    let end = start + long(read_u32_at(dir, at + 4));
    compare(&names[start..end], name)
}

// Binary search for the entry with a name. In a directory that opening has checked the names lie inside and rise; in any other the search
// stays inside it, and ends at a name that does not.
pub fn term_entry(dir: &[u8], names: &[u8], count: u32, name: &[u8]) -> Option<usize>
    requires { count * entry_size ≤ length dir.now }
    ensures { LocatedAny dir.now names.now count name.now result }
{
    // The library's search wants a slice of entries, and these are bytes.
    let mut low: usize = 0;
    let mut high = long(count);
    while low < high {
        let middle = low + (high - low) / 2;
        if entry_outside(dir, names, middle) {
            return None;
        }
        match compare_entry(dir, names, middle, name) {
            Ordering::Less => {
                low = middle + 1;
            }
            Ordering::Equal => {
                return Some(middle);
            }
            Ordering::Greater => {
                high = middle;
            }
        }
    }
    None
}
