// Lists one file after another: each argument names one, and its listing follows its name. The files in data/ and the stored output
// are made by runs.py, from the words of documents 01 and 02 and not from a run.
#![tactic(auto)]

use program_io::{argument, argument_count, open_named, put_failure, read_full};
use show_print::print::write_listing;
use std::fs::File;
use std::io;
use std::io::Print;

fn list_file(rt: &HostRuntime, file: &mut File) -> io::Result<()> {
    let mut segment = [0u8; 65537];
    let n = read_full(file, &mut segment)?;
    let mut text = [0u8; 4096];
    let _ = write_listing(&mut rt.stdout(), &segment[..n], &mut text)?;
    Ok(())
}

fn list_named(rt: &HostRuntime, name: &[u8]) -> io::Result<()> {
    match open_named(rt, name) {
        Ok(mut file) => list_file(rt, &mut file),
        Err(error) => put_failure(&mut rt.stderr(), name, &error),
    }
}

fn list_argument(rt: &HostRuntime, i: usize) -> io::Result<()> {
    let mut name = [0u8; 4096];
    let n = argument(rt, i, &mut name);
    rt.write_all(&name[..n])?;
    rt.write_all(b"\n")?;
    list_named(rt, &name[..n])
}

fn main(rt: HostRuntime) -> io::Result<()> {
    for i in 1..argument_count(&rt) {
        list_argument(&rt, i)?;
    }
    Ok(())
}
