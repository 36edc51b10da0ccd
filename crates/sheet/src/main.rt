// Prints bars of segments: `sheet FILE ID ..`. For each pair of arguments the sheet of the bar with that id in that file, or the refusal's
// three numbers in a line, as the listing has them. A file has at most 4,194,304 bytes here (else 12), its sheet at most 1,048,576 (else
// 13). The files in data/ and the stored output are made by runs.py, from the words of documents 01 and 02 and not from a run. Read in
// this order:
//   id   a bar's id, from decimal digits
#![tactic(auto)]

mod id;

use id::read_id;
use program_io::{argument, argument_count, open_named, put_failure, read_full};
use segment::ids::DocId;
use segment::refusal::Refusal;
use show_listing::list::list_refusal;
use show_print::paper::write_sheet;
use std::fs::File;
use std::io;
use std::io::{Print, Write};

// A refusal's line. No index of a refusal has more than ten digits here.
fn print_refusal(rt: &HostRuntime, x: Refusal) -> io::Result<()> {
    let mut line = [0u8; 31];
    let numbers = x.numbers();
    if numbers.index < 10000000000 {
        let _ = list_refusal(numbers, &mut line);
        Print::write_all(rt, &line)?;
    }
    Ok(())
}

fn print_sheet(
    rt: &HostRuntime,
    segment: &[u8],
    id: u32,
    text: &mut [u8; 1048576],
) -> io::Result<()> {
    match write_sheet(&mut rt.stdout(), segment, DocId(id), text)? {
        Err(x) => print_refusal(rt, x),
        Ok(_) => Ok(()),
    }
}

// The bar of an open file.
fn print_file(
    rt: &HostRuntime,
    file: &mut File,
    id: u32,
    segment: &mut [u8],
    text: &mut [u8; 1048576],
) -> io::Result<()> {
    let n = read_full(file, segment)?;
    if 4194304 < n {
        return print_refusal(rt, Refusal::TooLarge);
    }
    print_sheet(rt, &segment[..n], id, text)
}

// One place more than a file may have bytes here, so that a longer one is seen.
fn print_in(
    rt: &HostRuntime,
    file: &mut File,
    id: u32,
    segment: &mut [u8; 4194305],
    text: &mut [u8; 1048576],
) -> io::Result<()> {
    print_file(rt, file, id, segment, text)
}

fn print_open(rt: &HostRuntime, file: &mut File, id: u32) -> io::Result<()> {
    let mut segment = [0u8; 4194305];
    let mut text = [0u8; 1048576];
    print_in(rt, file, id, &mut segment, &mut text)
}

fn print_bar(rt: &HostRuntime, name: &[u8], id: u32) -> io::Result<()> {
    match open_named(rt, name) {
        Ok(mut file) => print_open(rt, &mut file, id),
        Err(error) => put_failure(&mut rt.stderr(), name, &error),
    }
}

fn put_no_id(rt: &HostRuntime, word: &[u8]) -> io::Result<()> {
    let mut errors = rt.stderr();
    Write::write_all(&mut errors, word)?;
    Write::write_all(&mut errors, b": not the id of a bar\n")
}

// A pair of arguments.
fn print_pair(rt: &HostRuntime, file: usize, bar: usize) -> io::Result<()> {
    let mut name = [0u8; 4096];
    let n = argument(rt, file, &mut name);
    let mut word = [0u8; 4096];
    let w = argument(rt, bar, &mut word);
    match read_id(&word[..w]) {
        Some(id) => print_bar(rt, &name[..n], id),
        None => put_no_id(rt, &word[..w]),
    }
}

fn main(rt: HostRuntime) -> io::Result<()> {
    let count = argument_count(&rt);
    // The first word is the program's own name.
    if count < 3 || count % 2 == 0 {
        return eprintln!(rt; "usage: sheet FILE ID ..");
    }
    for i in (1..count - 1).step_by(2) {
        print_pair(&rt, i, i + 1)?;
    }
    Ok(())
}
