// What is written: totals, and what went wrong.
use std::io;

pub fn put(rt: &impl Print, s: &[u8]) -> io::Result<()> {
    rt.write_all(s)
}

fn put_number(rt: &impl Print, x: u64) -> io::Result<()> {
    rt.print(x)
}

// A case by its number, from 0.
pub fn put_case(rt: &impl Print, i: u32) -> io::Result<()> {
    put(rt, b"case ")?;
    put_number(rt, i as u64)
}

pub fn put_malformed(rt: &impl Print, i: u32) -> io::Result<()> {
    put_case(rt, i)?;
    put(rt, b" is malformed\n")
}

pub fn put_no_end(rt: &impl Print) -> io::Result<()> {
    put(rt, b"the list goes on after its last case\n")
}

pub fn put_no_list(rt: &impl Print) -> io::Result<()> {
    put(rt, b"no list of cases, version 1\n")
}

pub fn put_counts(rt: &impl Print, cases: u64, failed: u64) -> io::Result<()> {
    put(rt, b": ")?;
    put_number(rt, cases)?;
    put(rt, b" cases, ")?;
    put_number(rt, failed)?;
    put(rt, b" failed\n")
}

pub fn put_kind(rt: &impl Print, kind: u64, cases: u64) -> io::Result<()> {
    put(rt, b"kind ")?;
    put_number(rt, kind)?;
    put(rt, b": ")?;
    put_number(rt, cases)?;
    put(rt, b"\n")
}

pub fn put_total(rt: &impl Print, cases: u32, failures: u32) -> io::Result<()> {
    put(rt, b"total")?;
    put_counts(rt, cases as u64, failures as u64)
}
