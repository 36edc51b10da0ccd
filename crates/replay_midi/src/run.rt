// A case's call, made and compared.
use crate::case::{
    ENDS, IDS, LENGTHS, POSITION_COUNTS, POSITIONS, POSTING_COUNTS, POSTING_IDS, TEXT, file_end,
    file_of, reply_of,
};
use pstp::midi::pstp_midi_bars;
use replay_list::buffers::{begins_with, fill, fill_bytes, read_numbers};
use replay_list::fields::{bytes_at, size_of, size_within};
use segment::names::starts_with;

// What the library answered: its kind, and whether reply and buffers are the case's.
#[derive(Clone, Copy)]
pub struct Outcome {
    pub kind: u32,
    pub same: bool,
}

// Buffer after buffer, in the order of the data: where the next one stands in the case, and whether all before it are the case's.
#[derive(Clone, Copy)]
struct Compared {
    at: usize,
    same: bool,
}

fn compare_numbers(case: &[u8], c: Compared, part: usize, buffer: &[u32]) -> Compared {
    let places = size_within(case, part, 64);
    let mut must = [0u32; 64];
    read_numbers(case, c.at, &mut must);
    Compared {
        at: std::num::wrapping_add_usize(c.at, 4 * places),
        same: c.same && begins_with(buffer, &must[0..places]),
    }
}

fn compare_text(case: &[u8], c: Compared, buffer: &[u8]) -> Compared {
    let bytes = size_of(case, TEXT);
    Compared {
        at: std::num::wrapping_add_usize(c.at, bytes),
        same: c.same && starts_with(buffer, bytes_at(case, c.at, bytes)),
    }
}

// Whether the buffers begin with what the case has.
fn same_buffers(
    case: &[u8; 4096],
    ids: &[u32; 64],
    lengths: &[u32; 64],
    text: &[u8; 256],
    ends: &[u32; 64],
    posting_counts: &[u32; 64],
    posting_ids: &[u32; 64],
    position_counts: &[u32; 64],
    positions: &[u32; 64],
) -> bool {
    let start = Compared {
        at: file_end(case),
        same: true,
    };
    let c1 = compare_numbers(case, start, IDS, ids);
    let c2 = compare_numbers(case, c1, LENGTHS, lengths);
    let c3 = compare_text(case, c2, text);
    let c4 = compare_numbers(case, c3, ENDS, ends);
    let c5 = compare_numbers(case, c4, POSTING_COUNTS, posting_counts);
    let c6 = compare_numbers(case, c5, POSTING_IDS, posting_ids);
    let c7 = compare_numbers(case, c6, POSITION_COUNTS, position_counts);
    let c8 = compare_numbers(case, c7, POSITIONS, positions);
    c8.same
}

// A buffer as it is before the call: as many places as the case lends.
fn lent<'a, 'b>(case: &'b [u8], part: usize, buffer: &'a mut [u32]) -> &'a mut [u32] {
    fill(buffer);
    let n = size_within(case, part, buffer.len());
    &mut buffer[0..n]
}

fn lent_text<'a, 'b>(case: &'b [u8], buffer: &'a mut [u8]) -> &'a mut [u8] {
    fill_bytes(buffer);
    let n = size_within(case, TEXT, buffer.len());
    &mut buffer[0..n]
}

// Makes the call, and compares.
pub fn run(case: &[u8; 4096]) -> Outcome {
    let mut ids = [0u32; 64];
    let mut lengths = [0u32; 64];
    let mut text = [0u8; 256];
    let mut ends = [0u32; 64];
    let mut posting_counts = [0u32; 64];
    let mut posting_ids = [0u32; 64];
    let mut position_counts = [0u32; 64];
    let mut positions = [0u32; 64];
    // The cases have no velocities: lent whole, and not compared.
    let mut velocities = [0u8; 64];
    let reply = pstp_midi_bars(
        file_of(case),
        lent(case, IDS, &mut ids),
        lent(case, LENGTHS, &mut lengths),
        lent_text(case, &mut text),
        lent(case, ENDS, &mut ends),
        lent(case, POSTING_COUNTS, &mut posting_counts),
        lent(case, POSTING_IDS, &mut posting_ids),
        lent(case, POSITION_COUNTS, &mut position_counts),
        lent(case, POSITIONS, &mut positions),
        &mut velocities,
    );
    Outcome {
        kind: reply.kind,
        same: reply == reply_of(case)
            && same_buffers(
                case,
                &ids,
                &lengths,
                &text,
                &ends,
                &posting_counts,
                &posting_ids,
                &position_counts,
                &positions,
            ),
    }
}
