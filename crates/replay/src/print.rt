// The totals, and the words between.
use replay_list::print::{put, put_case, put_counts, put_kind};
use std::io;

fn put_call(rt: &impl Print, call: u32) -> io::Result<()> {
    match call {
        1 => put(rt, b"open"),
        2 => put(rt, b"document_lengths"),
        3 => put(rt, b"document_len"),
        4 => put(rt, b"df"),
        5 => put(rt, b"docs_with_term"),
        6 => put(rt, b"term_postings"),
        7 => put(rt, b"positions"),
        8 => put(rt, b"phrase_match_strs"),
        9 => put(rt, b"near_match"),
        10 => put(rt, b"near_match_terms_strs"),
        _ => put(rt, b"write_positional_segment"),
    }
}

pub fn put_difference(rt: &impl Print, i: u32, call: u32) -> io::Result<()> {
    put_case(rt, i)?;
    put(rt, b", ")?;
    put_call(rt, call)?;
    put(rt, b", differs\n")
}

fn put_asked(rt: &impl Print, call: u32, cases: u64, failed: u64) -> io::Result<()> {
    put_call(rt, call)?;
    put_counts(rt, cases, failed)
}

pub fn put_calls(rt: &impl Print, asked: &[u64; 16], failed: &[u64; 16]) -> io::Result<()> {
    for call in 1..12u32 {
        let i = call as usize;
        put_asked(rt, call, asked[i], failed[i])?;
    }
    Ok(())
}

pub fn put_kinds(rt: &impl Print, kinds: &[u64; 16]) -> io::Result<()> {
    for kind in 0..14u32 {
        put_kind(rt, kind as u64, kinds[kind as usize])?;
    }
    Ok(())
}
