// Replays a stored list of the original Rust's answers against this library, through the C interface: all seven numbers of each reply, of
// which the last two are 0, and every place of every lent buffer. The list is data/cases, made by `oracle/run PATH --sample FILE`;
// oracle/README.md has its format. The totals that the program must write stand in the file stdout: totals.py counts them from the list,
// and no run does. Over what replay_list has, read in this order:
//   case     the fields of a case, and where the parts of its data lie
//   run      a case's call, made and compared
//   print    the totals
#![tactic(auto)]

mod case;
mod print;
mod run;

use case::read_case;
use print::{put_calls, put_difference, put_kinds};
use program_io::read_full;
use replay_list::fields::number_at;
use replay_list::list::{is_at_end, is_list};
use replay_list::print::{put_malformed, put_no_end, put_no_list, put_total};
use replay_list::totals::count;
use run::run;
use std::fs::File;
use std::io::Read;
use std::{fs, io};

// One more case differs: shown if it is among the first ten.
fn difference(rt: &impl Print, failures: u32, i: u32, call: u32) -> io::Result<u32> {
    if failures < 10 {
        put_difference(rt, i, call)?;
    }
    Ok(std::num::wrapping_add_u32(failures, 1))
}

// The cases of a list, after its head.
fn replay<R: Read>(rt: &impl Print, from: &mut R, cases: u32) -> io::Result<()> {
    let mut case = [0u8; 4096];
    let mut asked = [0u64; 16];
    let mut failed = [0u64; 16];
    let mut kinds = [0u64; 16];
    let mut failures: u32 = 0;
    for i in 0..cases {
        if !read_case(from, &mut case)? {
            return put_malformed(rt, i);
        }
        let outcome = run(&case);
        count(&mut asked, outcome.call);
        count(&mut kinds, outcome.kind);
        if !outcome.same {
            count(&mut failed, outcome.call);
            failures = difference(rt, failures, i, outcome.call)?;
        }
    }
    if !is_at_end(from)? {
        return put_no_end(rt);
    }
    put_calls(rt, &asked, &failed)?;
    put_kinds(rt, &kinds)?;
    put_total(rt, cases, failures)
}

fn replay_file(rt: &HostRuntime, file: &mut File) -> io::Result<()> {
    let mut head = [0u8; 16];
    let n = read_full(file, &mut head)?;
    if n == 16 && is_list(&head, b"PSTPCASE") {
        replay(rt, file, number_at(&head, 12))
    } else {
        put_no_list(rt)
    }
}

fn main(rt: HostRuntime) -> io::Result<()> {
    match fs::open(&rt, "cases") {
        Ok(mut file) => replay_file(&rt, &mut file),
        Err(_) => put_no_list(&rt),
    }
}
