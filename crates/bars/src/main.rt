// Document 01's bars to try: written, listed, asked. The file stdout has what each line must say, written from document 01 and not
// from a run. The marked cases are settled by computing the definitions as well (crate cases); here the program answers them.
#![tactic(auto)]

use ask_search::questions::{near_match_terms_strs, phrase_match_strs};
use read_open::open_segment::open;
use segment::refusal::Refusal;
use show_print::print::write_listing;
use std::io;
use write_segment::write::write_positional_segment;

fn put(rt: &impl Print, s: &[u8]) -> io::Result<()> {
    rt.write_all(s)
}

fn put_number(rt: &impl Print, x: u64) -> io::Result<()> {
    put(rt, b" ")?;
    rt.print(x)
}

fn put_refusal(rt: &impl Print, x: Refusal) -> io::Result<()> {
    let n = x.numbers();
    put(rt, b" refused")?;
    put_number(rt, n.kind as u64)?;
    put_number(rt, n.which as u64)?;
    put_number(rt, n.index)?;
    put(rt, b"\n")
}

fn put_u32(rt: &impl Print, x: u32) -> io::Result<()> {
    put_number(rt, x as u64)
}

fn put_u8(rt: &impl Print, x: u8) -> io::Result<()> {
    put_number(rt, x as u64)
}

// The first n numbers of a buffer.
fn put_first(rt: &impl Print, n: usize, xs: &[u32]) -> io::Result<()> {
    for x in xs.iter().take(n) {
        put_u32(rt, *x)?;
    }
    Ok(())
}

fn put_bytes(rt: &impl Print, bytes: &[u8]) -> io::Result<()> {
    for b in bytes {
        put_u8(rt, *b)?;
    }
    Ok(())
}

fn put_answer(rt: &impl Print, answer: Result<usize, Refusal>, ids: &[u32]) -> io::Result<()> {
    match answer {
        Ok(n) => {
            if n == 0 {
                put(rt, b" none")?;
            }
            put_first(rt, n, ids)?;
            put(rt, b"\n")
        }
        Err(x) => put_refusal(rt, x),
    }
}

fn put_written(rt: &impl Print, answer: Result<usize, Refusal>) -> io::Result<()> {
    match answer {
        Ok(n) => {
            put_number(rt, n as u64)?;
            put(rt, b" bytes\n")
        }
        Err(x) => put_refusal(rt, x),
    }
}

fn phrase(
    rt: &impl Print,
    said: &[u8],
    segment: &[u8],
    text: &[u8],
    ends: &[u32],
) -> io::Result<()> {
    put(rt, b"phrase ")?;
    put(rt, said)?;
    put(rt, b":")?;
    let mut ids: [u32; 4] = [0; 4];
    let answer = phrase_match_strs(segment, text, ends, &mut ids);
    put_answer(rt, answer, &ids)
}

fn near(
    rt: &impl Print,
    said: &[u8],
    segment: &[u8],
    text: &[u8],
    ends: &[u32],
    window: u32,
    ordered: bool,
) -> io::Result<()> {
    if ordered {
        put(rt, b"ordered ")?;
    } else {
        put(rt, b"unordered ")?;
    }
    put(rt, said)?;
    put(rt, b", window")?;
    put_number(rt, window as u64)?;
    put(rt, b":")?;
    let mut ids: [u32; 4] = [0; 4];
    let answer = near_match_terms_strs(segment, text, ends, window, ordered, &mut ids);
    put_answer(rt, answer, &ids)
}

fn opened(rt: &impl Print, segment: &[u8]) -> io::Result<()> {
    match open(segment) {
        Ok(c) => {
            put_number(rt, c.documents as u64)?;
            put_number(rt, c.terms as u64)?;
            put(rt, b"\n")
        }
        Err(x) => put_refusal(rt, x),
    }
}

// A segment that lost its last byte.
fn opened_without_last(rt: &impl Print, segment: &[u8]) -> io::Result<()> {
    if segment.len() == 0 {
        return Ok(());
    }
    let n = segment.len() - 1;
    opened(rt, &segment[..n])
}

// The questions of document 01, put to the two bars.
fn phrases(rt: &impl Print, segment: &[u8]) -> io::Result<()> {
    phrase(rt, b"kick snare", segment, b"kicksnare", &[4, 9])?;
    phrase(
        rt,
        b"kick snare snare",
        segment,
        b"kicksnaresnare",
        &[4, 9, 14],
    )?;
    phrase(rt, b"snare", segment, b"snare", &[5])?;
    phrase(rt, b"kick tom", segment, b"kicktom", &[4, 7])
}

fn kick_snare(rt: &impl Print, segment: &[u8], window: u32, ordered: bool) -> io::Result<()> {
    near(
        rt,
        b"kick snare",
        segment,
        b"kicksnare",
        &[4, 9],
        window,
        ordered,
    )
}

fn snare_snare(rt: &impl Print, segment: &[u8], window: u32) -> io::Result<()> {
    near(
        rt,
        b"snare snare",
        segment,
        b"snaresnare",
        &[5, 10],
        window,
        false,
    )
}

fn nears(rt: &impl Print, segment: &[u8]) -> io::Result<()> {
    kick_snare(rt, segment, 3, true)?;
    kick_snare(rt, segment, 4, true)?;
    near(rt, b"snare kick", segment, b"snarekick", &[5, 9], 1, true)?;
    kick_snare(rt, segment, 1, false)?;
    snare_snare(rt, segment, 5)?;
    snare_snare(rt, segment, 6)
}

// Bars (id 3, length 16), (7, 16). Kick: bar 3 on 0, 4, 15; bar 7 on 2. Snare: bar 3 on 8, 14; bar 7 on 3, 4.
fn write_two(rt: &impl Print, out: &mut [u8]) -> io::Result<()> {
    put_written(
        rt,
        write_positional_segment(
            &[3, 7],
            &[16, 16],
            b"kicksnare",
            &[4, 9],
            &[2, 2],
            &[3, 7, 3, 7],
            &[3, 1, 2, 2],
            &[0, 4, 15, 2, 8, 14, 3, 4],
            out,
        ),
    )
}

fn two_documents(rt: &impl Print) -> io::Result<()> {
    let mut out: [u8; 165] = [0; 165];
    put(rt, b"two bars:")?;
    write_two(rt, &mut out)?;
    let mut text = [0u8; 200];
    let _ = write_listing(&mut io::writer(rt), &out, &mut text)?;
    phrases(rt, &out)?;
    nears(rt, &out)?;
    put(rt, b"one place short:")?;
    let mut short: [u8; 164] = [0; 164];
    write_two(rt, &mut short)
}

// No bars and no sounds: its bytes, opened whole and without the last.
fn write_none(rt: &impl Print, out: &mut [u8]) -> io::Result<()> {
    put_written(
        rt,
        write_positional_segment(&[], &[], b"", &[], &[], &[], &[], &[], out),
    )
}

fn no_documents(rt: &impl Print) -> io::Result<()> {
    let mut out: [u8; 72] = [255; 72];
    put(rt, b"no bars, no sounds:")?;
    write_none(rt, &mut out)?;
    put_bytes(rt, &out)?;
    put(rt, b"\nits counts:")?;
    opened(rt, &out)?;
    put(rt, b"71 of its bytes:")?;
    opened_without_last(rt, &out)
}

// Fills a buffer with numbers that follow one another.
fn count_up(from: u32, xs: &mut [u32]) {
    let mut next = from;
    for x in xs.iter_mut() {
        *x = next;
        next = std::num::wrapping_add_u32(next, 1);
    }
}

// A bar of 128 steps with a kick on each.
fn write_kicks(rt: &impl Print, out: &mut [u8]) -> io::Result<()> {
    let mut steps: [u32; 128] = [0; 128];
    count_up(0, &mut steps);
    put_written(
        rt,
        write_positional_segment(&[1], &[128], b"k", &[1], &[1], &[1], &[128], &steps, out),
    )
}

// Questions of as many kicks as are allowed, and of one more.
fn many_terms(rt: &impl Print) -> io::Result<()> {
    let mut out: [u8; 239] = [0; 239];
    put(rt, b"a bar of 128 kicks:")?;
    write_kicks(rt, &mut out)?;
    let mut ends: [u32; 128] = [0; 128];
    count_up(1, &mut ends);
    allowed(rt, &out, &[b'k'; 128], &ends)?;
    let mut more: [u32; 129] = [0; 129];
    count_up(1, &mut more);
    too_many(rt, &out, &[b'k'; 129], &more)
}

fn allowed(rt: &impl Print, segment: &[u8], text: &[u8], ends: &[u32]) -> io::Result<()> {
    phrase(rt, b"of 128 kicks", segment, text, ends)?;
    near(rt, b"128 kicks", segment, text, ends, 126, true)?;
    near(rt, b"128 kicks", segment, text, ends, 127, true)?;
    near(rt, b"128 kicks", segment, text, ends, 126, false)?;
    near(rt, b"128 kicks", segment, text, ends, 127, false)
}

fn too_many(rt: &impl Print, segment: &[u8], text: &[u8], ends: &[u32]) -> io::Result<()> {
    phrase(rt, b"of 129 kicks", segment, text, ends)?;
    near(rt, b"129 kicks", segment, text, ends, 127, true)?;
    near(rt, b"129 kicks", segment, text, ends, 127, false)
}

fn main(rt: HostRuntime) -> io::Result<()> {
    two_documents(&rt)?;
    no_documents(&rt)?;
    many_terms(&rt)
}
