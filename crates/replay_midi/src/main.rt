// Replays a stored list of MIDI files against this library, through the C interface: all seven numbers of each reply, and every place of
// the eight lent buffers that hold the writer's lists; velocities are lent and not compared. The list is data/cases, made by
// `oracle/run PATH --midi-sample FILE` from a model of document 02's words; oracle/README.md has its format. The totals that the program
// must write stand in the file stdout: totals.py counts them from the list, and no run does. Over what replay_list has, read in this order:
//   case     the fields of a case, and where the parts of its data lie
//   run      a case's call, made and compared
#![tactic(auto)]

mod case;
mod run;

use case::read_case;
use program_io::read_full;
use replay_list::fields::number_at;
use replay_list::list::{is_at_end, is_list};
use replay_list::print::{
    put, put_case, put_kind, put_malformed, put_no_end, put_no_list, put_total,
};
use replay_list::totals::count;
use run::run;
use std::fs::File;
use std::io::Read;
use std::{fs, io};

// One more case differs: shown if it is among the first ten.
fn difference(rt: &impl Print, failures: u32, i: u32) -> io::Result<u32> {
    if failures < 10 {
        put_case(rt, i)?;
        put(rt, b" differs\n")?;
    }
    Ok(std::num::wrapping_add_u32(failures, 1))
}

// Accepted, no room, outside the rules, a bar too far.
fn put_kinds(rt: &impl Print, kinds: &[u64; 16]) -> io::Result<()> {
    for kind in [0u32, 13, 14, 15] {
        put_kind(rt, kind as u64, kinds[kind as usize])?;
    }
    Ok(())
}

// The cases of a list, after its head.
fn replay<R: Read>(rt: &impl Print, from: &mut R, cases: u32) -> io::Result<()> {
    let mut case = [0u8; 4096];
    let mut kinds = [0u64; 16];
    let mut failures: u32 = 0;
    for i in 0..cases {
        if !read_case(from, &mut case)? {
            return put_malformed(rt, i);
        }
        let outcome = run(&case);
        count(&mut kinds, outcome.kind);
        if !outcome.same {
            failures = difference(rt, failures, i)?;
        }
    }
    if !is_at_end(from)? {
        return put_no_end(rt);
    }
    put_kinds(rt, &kinds)?;
    put_total(rt, cases, failures)
}

fn replay_file(rt: &HostRuntime, file: &mut File) -> io::Result<()> {
    let mut head = [0u8; 16];
    let n = read_full(file, &mut head)?;
    if n == 16 && is_list(&head, b"PSTPMIDI") {
        replay(rt, file, number_at(&head, 12))
    } else {
        put_no_list(rt)
    }
}

fn main(rt: HostRuntime) -> io::Result<()> {
    match fs::open(&rt, "cases") {
        Ok(mut file) => replay_file(&rt, &mut file),
        Err(_) => put_no_list(&rt),
    }
}
