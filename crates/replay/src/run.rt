// A case's call, made and compared.
use crate::case::{
    ENDS, FIRST, IDS, LENGTHS, OUT, POSITION_COUNTS, POSITIONS, POSTING_COUNTS, POSTING_IDS,
    SECOND, SECOND_NAME, SEGMENT, TEXT, THIRD, argument_of, bytes_end, bytes_of, call_of,
    is_ordered, list_of, reply_of,
};
use c_reply::reply::Reply;
use pstp::ask::{pstp_near_match, pstp_near_match_terms_strs, pstp_phrase_match_strs};
use pstp::read::{
    pstp_df, pstp_docs_with_term, pstp_document_len, pstp_document_lengths, pstp_open,
    pstp_positions, pstp_term_postings,
};
use pstp::write::pstp_write_positional_segment;
use replay_list::buffers::{begins_with, fill, fill_bytes, read_numbers};
use replay_list::fields::size_within;
use segment::names::starts_with;

// What the library answered: its kind, and whether reply and buffers are the case's.
#[derive(Clone, Copy)]
pub struct Outcome {
    pub call: u32,
    pub kind: u32,
    pub same: bool,
}

// Whether the buffers begin with what the case has.
fn same_buffers(
    case: &[u8; 4096],
    numbers: &[u32; 1024],
    first: &[u32; 64],
    second: &[u32; 64],
    third: &[u32; 64],
    out: &[u8; 1536],
) -> bool {
    begins_with(first, list_of(case, numbers, FIRST))
        && begins_with(second, list_of(case, numbers, SECOND))
        && begins_with(third, list_of(case, numbers, THIRD))
        && starts_with(out, bytes_of(case, OUT))
}

// Calls 1 to 7.
fn read(
    call: u32,
    id: u32,
    segment: &[u8],
    name: &[u8],
    first: &mut [u32],
    second: &mut [u32],
    third: &mut [u32],
) -> Reply {
    match call {
        1 => pstp_open(segment),
        2 => pstp_document_lengths(segment, first, second),
        3 => pstp_document_len(segment, id),
        4 => pstp_df(segment, name),
        5 => pstp_docs_with_term(segment, name, first),
        6 => pstp_term_postings(segment, name, first, second, third),
        _ => pstp_positions(segment, name, id, first),
    }
}

// Calls 8 to 10.
fn ask(case: &[u8], numbers: &[u32], ids: &mut [u32]) -> Reply {
    let segment = bytes_of(case, SEGMENT);
    let text = bytes_of(case, TEXT);
    let ends = list_of(case, numbers, ENDS);
    let window = argument_of(case);
    match call_of(case) {
        8 => pstp_phrase_match_strs(segment, text, ends, ids),
        9 => pstp_near_match(segment, text, bytes_of(case, SECOND_NAME), window, ids),
        _ => pstp_near_match_terms_strs(segment, text, ends, window, is_ordered(case), ids),
    }
}

// Call 11.
fn write(case: &[u8], numbers: &[u32], out: &mut [u8]) -> Reply {
    pstp_write_positional_segment(
        list_of(case, numbers, IDS),
        list_of(case, numbers, LENGTHS),
        bytes_of(case, TEXT),
        list_of(case, numbers, ENDS),
        list_of(case, numbers, POSTING_COUNTS),
        list_of(case, numbers, POSTING_IDS),
        list_of(case, numbers, POSITION_COUNTS),
        list_of(case, numbers, POSITIONS),
        out,
    )
}

// The call, whichever it is.
fn answer(
    case: &[u8],
    numbers: &[u32],
    first: &mut [u32],
    second: &mut [u32],
    third: &mut [u32],
    out: &mut [u8],
) -> Reply {
    let call = call_of(case);
    if call < 8 {
        let segment = bytes_of(case, SEGMENT);
        let name = bytes_of(case, TEXT);
        return read(call, argument_of(case), segment, name, first, second, third);
    }
    if call < 11 {
        return ask(case, numbers, first);
    }
    write(case, numbers, out)
}

// Makes the call with buffers as the format has them before it, and compares.
pub fn run(case: &[u8; 4096]) -> Outcome {
    let mut numbers = [0u32; 1024];
    let mut first = [0u32; 64];
    let mut second = [0u32; 64];
    let mut third = [0u32; 64];
    let mut out = [0u8; 1536];
    read_numbers(case, bytes_end(case), &mut numbers);
    fill(&mut first);
    fill(&mut second);
    fill(&mut third);
    fill_bytes(&mut out);
    let a = size_within(case, FIRST, 64);
    let b = size_within(case, SECOND, 64);
    let c = size_within(case, THIRD, 64);
    let d = size_within(case, OUT, 1536);
    let reply = answer(
        case,
        &numbers,
        &mut first[0..a],
        &mut second[0..b],
        &mut third[0..c],
        &mut out[0..d],
    );
    Outcome {
        call: call_of(case),
        kind: reply.kind,
        same: reply == reply_of(case)
            && same_buffers(case, &numbers, &first, &second, &third, &out),
    }
}
